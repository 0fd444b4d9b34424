// A visit of all drives by one who keeps something of each. For the array nothing happens.
ghost use Rattle.std.specs.Prelude.{◌≡◌, ◌++◌, ◌∷◌, [], List, map, length, true};
ghost use Rattle.unit_store.specs.Views.{DriveView, drive_view};

use crate::array::Array;
use extents::Drive;
use slot_tables::Hold;

/// One who is shown the drives of an array, and leaves of each what an array knows of it: its units, and whether it is lost.
pub trait Visit<D: Drive> {
    ghost use Rattle.std.specs.Prelude.{List};
    ghost use Rattle.unit_store.specs.Views.{DriveView};

    /// The drives that it was shown, in their order.
    ghost shown: { Self → List DriveView };

    /// What its visits make of it, also the one that ends the walk.
    ghost leads_to: { Self → Self → Type 0 };

    /// Is shown the next drive. False ends the walk.
    fn visit(&mut self, drive: &mut D) -> bool
        ensures drive { drive_view D.units D.lost D.failures drive.new ≡ drive_view D.units D.lost D.failures drive.old }
        ensures shown { result ≡ true → shown self.new ≡ shown self.old ++ drive_view D.units D.lost D.failures drive.old ∷ [] }
        ensures leads { leads_to self.old self.new };

    /// No visit leads to where it was.
    ghost stays: { (v : Self) → leads_to v v };

    /// Two visits, one after the other.
    ghost further: { (u v w : Self) → leads_to u v → leads_to v w → leads_to u w };
}

// Shows each drive, in ascending order. False where the visitor ended the walk.
fn show_drives<D: Drive, V: Visit<D>>(drives: &mut [D], visitor: &mut V) -> bool
    ensures drives { map (drive_view D.units D.lost D.failures) drives.new ≡ map (drive_view D.units D.lost D.failures) drives.old }
    ensures shown { result ≡ true → V.shown visitor.new ≡ V.shown visitor.old ++ map (drive_view D.units D.lost D.failures) drives.old }
    ensures leads { V.leads_to visitor.old visitor.new }
{
    for number in 0..drives.len() {
        if !visitor.visit(&mut drives[number]) {
            return false;
        }
    }
    true
}

impl<D: Drive, C: Hold> Array<D, C> {
    /// Shows each drive, lost ones too, in ascending order. False where the visitor ended the walk.
    pub fn visit_drives<V: Visit<D>>(&mut self, visitor: &mut V) -> bool
        ensures same { self.new ≡ self.old }
        ensures shown { result ≡ true → V.shown visitor.new ≡ V.shown visitor.old ++ self.old.parts.drives }
        ensures leads { V.leads_to visitor.old visitor.new }
    {
        let drives: &mut [D] = &mut self.parts.drives;
        show_drives(drives, visitor)
    }
}
