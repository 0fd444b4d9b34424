// Which table a value is of.
use std::marker::Brand;

/// Names one table, so that its Takers are known by their type.
pub trait Naming {
    ghost use Rattle.atomic_table.specs.Seated.{TableId};

    // The table that bears the name.
    ghost table: { TableId };
}

impl Naming for Brand {
    ghost use Rattle.map_words.specs.Places.{no_table};

    ghost table = { no_table };
}
