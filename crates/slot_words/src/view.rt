// What a seat of the table knows. No value of a view is made: it is for proofs alone.
use std::collections::LinkedList;

/// A slot and the generation at which it is held.
#[derive(Clone, Copy)]
pub struct Held {
    pub slot: u64,
    pub generation: u64,
}

/// What a step did at its word: a load, a compare-exchange or a store.
#[derive(Clone, Copy)]
pub enum Kind {
    Look,
    Exchange,
    Store,
}

/// What a step did, the place of its word, what it found there and what it left, and its number among the table's steps,
/// counted from 1.
#[derive(Clone, Copy)]
pub struct Sight {
    pub kind: Kind,
    pub place: u64,
    pub found: u64,
    pub left: u64,
    pub time: u64,
}

/// The seat's last look, its last step of any kind, all that it made, the pairs that it has, and a list of won pairs;
/// and its shares of the right to step, each given as how often the whole right was halved.
pub struct View {
    pub look: Sight,
    pub sight: Sight,
    pub steps: LinkedList<Sight>,
    pub pairs: LinkedList<Held>,
    pub won: LinkedList<Held>,
    pub shares: LinkedList<u64>,
}
