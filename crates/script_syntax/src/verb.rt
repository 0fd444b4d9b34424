//! The table of commands: a verb's word, and in its row the kinds of its numbers and what follows them.
ghost use Rattle.std.specs.Prelude.{◌≡◌, ◌≤◌, length, IfSome, IfNone};
ghost use Rattle.script_syntax.specs.Order.{keyword_of, kinds_of, tail_of};

/// What a command asks for.
#[derive(Clone, Copy)]
pub enum Verb {
    Array,
    Make,
    Unmake,
    Claim,
    Release,
    Fill,
    Copy,
    Commit,
    Discard,
    Read,
    At,
    Write,
    Trim,
    Demote,
    Plug,
    Clean,
    Take,
    Merge,
    Same,
    Show,
    Map,
    Log,
    Scan,
    Restart,
    Add,
    Balance,
    Rebuild,
    Lose,
}

/// What a number of a command represents.
#[derive(Clone, Copy)]
pub enum Kind {
    Worker,
    Slot,
    Block,
    Drive,
    Extent,
    Group,
    Map,
    /// A number of drives, or a size of the array.
    Size,
}

/// What follows a command's numbers.
#[derive(Clone, Copy)]
pub enum Tail {
    Nothing,
    Record,
    Payload,
    /// A class of groups, and three to eight members.
    Members,
}

/// A row of the table.
#[derive(Clone, Copy)]
pub struct Row {
    pub kinds: &'static [Kind],
    pub tail: Tail,
}

impl Row {
    fn new(kinds: &'static [Kind], tail: Tail) -> Row
        ensures kinds { result.kinds.now ≡ kinds.now }
        ensures tail { result.tail ≡ tail }
    {
        Row { kinds, tail }
    }
}

impl Verb {
    /// The verb's row of the table.
    pub fn row(self) -> Row
        ensures kinds { result.kinds.now ≡ kinds_of self }
        ensures few { length result.kinds.now ≤ 5 }
        ensures tail { result.tail ≡ tail_of self }
    {
        match self {
            Verb::Array => Row::new(
                &[Kind::Size, Kind::Size, Kind::Size, Kind::Size, Kind::Size],
                Tail::Nothing,
            ),
            Verb::Make => Row::new(&[], Tail::Members),
            Verb::Unmake => Row::new(&[Kind::Worker, Kind::Group], Tail::Nothing),
            Verb::Claim => Row::new(&[Kind::Worker, Kind::Slot], Tail::Nothing),
            Verb::Release => Row::new(&[Kind::Worker, Kind::Slot], Tail::Nothing),
            Verb::Fill => Row::new(&[Kind::Worker, Kind::Slot], Tail::Payload),
            Verb::Copy => Row::new(&[Kind::Worker, Kind::Slot, Kind::Block], Tail::Nothing),
            Verb::Commit => Row::new(&[Kind::Worker, Kind::Slot, Kind::Block], Tail::Nothing),
            Verb::Discard => Row::new(&[Kind::Worker, Kind::Slot], Tail::Nothing),
            Verb::Read => Row::new(&[Kind::Block], Tail::Nothing),
            Verb::At => Row::new(&[], Tail::Record),
            Verb::Write => Row::new(&[Kind::Worker, Kind::Block], Tail::Payload),
            Verb::Trim => Row::new(&[Kind::Worker, Kind::Block], Tail::Nothing),
            Verb::Demote => Row::new(&[Kind::Worker], Tail::Nothing),
            Verb::Plug => Row::new(&[Kind::Worker], Tail::Nothing),
            Verb::Clean => Row::new(&[Kind::Worker], Tail::Nothing),
            Verb::Take => Row::new(&[Kind::Map], Tail::Record),
            Verb::Merge => Row::new(&[Kind::Map, Kind::Map], Tail::Nothing),
            Verb::Same => Row::new(&[Kind::Map, Kind::Map], Tail::Nothing),
            Verb::Show => Row::new(&[Kind::Map], Tail::Nothing),
            Verb::Map => Row::new(&[], Tail::Nothing),
            Verb::Log => Row::new(&[], Tail::Nothing),
            Verb::Scan => Row::new(&[], Tail::Nothing),
            Verb::Restart => Row::new(&[], Tail::Nothing),
            Verb::Add => Row::new(&[], Tail::Nothing),
            Verb::Balance => Row::new(&[], Tail::Nothing),
            Verb::Rebuild => Row::new(&[Kind::Drive], Tail::Nothing),
            Verb::Lose => Row::new(&[Kind::Drive], Tail::Nothing),
        }
    }
}

/// The verb that the word spells, if it spells one.
pub fn verb_of(word: &[u8]) -> Option<Verb>
    ensures some { IfSome result (λ verb. word.now ≡ keyword_of verb) }
    ensures none { IfNone result ((verb : Verb) → word.now ≡ keyword_of verb → ⊥) }
{
    match word {
        b"array" => Some(Verb::Array),
        b"make" => Some(Verb::Make),
        b"unmake" => Some(Verb::Unmake),
        b"claim" => Some(Verb::Claim),
        b"release" => Some(Verb::Release),
        b"fill" => Some(Verb::Fill),
        b"copy" => Some(Verb::Copy),
        b"commit" => Some(Verb::Commit),
        b"discard" => Some(Verb::Discard),
        b"read" => Some(Verb::Read),
        b"at" => Some(Verb::At),
        b"write" => Some(Verb::Write),
        b"trim" => Some(Verb::Trim),
        b"demote" => Some(Verb::Demote),
        b"plug" => Some(Verb::Plug),
        b"clean" => Some(Verb::Clean),
        b"take" => Some(Verb::Take),
        b"merge" => Some(Verb::Merge),
        b"same" => Some(Verb::Same),
        b"show" => Some(Verb::Show),
        b"map" => Some(Verb::Map),
        b"log" => Some(Verb::Log),
        b"scan" => Some(Verb::Scan),
        b"restart" => Some(Verb::Restart),
        b"add" => Some(Verb::Add),
        b"balance" => Some(Verb::Balance),
        b"rebuild" => Some(Verb::Rebuild),
        b"lose" => Some(Verb::Lose),
        _ => None,
    }
}
