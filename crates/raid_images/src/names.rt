//! Which names are of one file.
ghost use Rattle.std.specs.Prelude.{◌↔◌, ◌<◌, ℕ, IsTrue, IfSome, IfNone, length};
ghost use Rattle.raid_images.specs.Names.{AreOne, AreTwins, HasNoAliases, IsOneNode};

/// A file or a folder, by its device and its number there, which are the same for each spelling of its path.
#[derive(Clone, Copy, Debug, PartialEq, Eq)]
pub(crate) struct Node {
    pub(crate) device: u64,
    pub(crate) number: u64,
}

/// A name: the folder that it lies in, its last part, and the file that is there, if one is.
#[derive(Drop)]
pub(crate) struct Spot {
    pub(crate) folder: Node,
    pub(crate) last: Vec<u8>,
    /// Through symbolic links.
    pub(crate) node: Option<Node>,
}

// Whether two files are there, and are one.
fn is_same_node(one: &Option<Node>, other: &Option<Node>) -> bool
    ensures { IsTrue result ↔ IsOneNode one.now other.now }
{
    match (one, other) {
        (Some(one), Some(other)) => *one == *other,
        _ => false,
    }
}

/// Whether two names are of one file: in one folder with one last part, or linked to one file. The text is needed where no
/// file is there yet, the file where a link leads to it.
pub(crate) fn are_one(one: &Spot, other: &Spot) -> bool
    ensures { IsTrue result ↔ AreOne one.now other.now }
{
    if one.folder == other.folder && one.last.as_slice() == other.last.as_slice() {
        return true;
    }
    is_same_node(&one.node, &other.node)
}

// The first of the names before this one that is of its file.
fn twin_of(spots: &[Spot], higher: usize) -> Option<usize>
    requires { higher < length spots.now }
    ensures some { IfSome result (λ lower. AreTwins spots.now lower higher) }
    ensures none { IfNone result ((lower : ℕ) → AreTwins spots.now lower higher → ⊥) }
{
    for lower in 0..higher {
        if are_one(&spots[lower], &spots[higher]) {
            return Some(lower);
        }
    }
    None
}

/// The numbers of two names that are of one file, the lower first; none where there are none.
pub(crate) fn find_aliases(spots: &[Spot]) -> Option<(usize, usize)>
    ensures some { IfSome result (λ found. AreTwins spots.now found.0 found.1) }
    ensures none { IfNone result (HasNoAliases spots.now) }
{
    for higher in 0..spots.len() {
        if let Some(lower) = twin_of(spots, higher) {
            return Some((lower, higher));
        }
    }
    None
}
