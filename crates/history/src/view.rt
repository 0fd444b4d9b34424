// What a seat knows. No value of it is made.
use std::collections::LinkedList;

/// Something that was done: the number of the hand that did it, and what.
pub struct Entry<E> {
    pub by: u64,
    pub what: E,
}

/// The keeper knows the whole history and how many hands were hired; a hand its number, the history as it was right after its
/// last entry, and its own entries. A keeper that has taken in a hand's seat knows both.
pub struct View<E> {
    pub keeps: bool,
    pub hired: u64,
    pub log: LinkedList<Entry<E>>,
    pub works: bool,
    pub number: u64,
    pub seen: LinkedList<Entry<E>>,
    pub mine: LinkedList<Entry<E>>,
}
