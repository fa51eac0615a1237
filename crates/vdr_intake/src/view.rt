// What an end of a queue knows of it, in the proofs alone.
use crate::item::Captured;
use std::collections::LinkedList;

/// What an end of a queue knows: whether it may push and may pop, the queue's group and capacity, the items that it
/// pushed and those that it popped. It stands in proofs alone: no value of it is made.
pub struct EndView {
    pub feeds: bool,
    pub takes: bool,
    pub group: u64,
    pub capacity: u64,
    pub pushed: LinkedList<Captured>,
    pub popped: LinkedList<Captured>,
}
