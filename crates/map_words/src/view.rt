// What a seat of the table knows. No value of a view is made: it is for proofs alone.
use map_join::Record;
use std::collections::LinkedList;

/// A call of `take` or `find`: its place in the order of all of them, what it read at the block's word, a key or 0, and what it
/// left there.
#[derive(Clone, Copy)]
pub struct Found {
    pub block: u64,
    pub time: u64,
    pub key: u64,
    pub left: u64,
}

/// A seat's share, the records that it took, and what each of its calls of `take` and `find` found.
pub struct View {
    pub share: u64,
    pub taken: LinkedList<Record>,
    pub found: LinkedList<Found>,
}
