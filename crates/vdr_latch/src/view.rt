// What a pass knows of the latch, in the proofs alone.
use std::collections::LinkedList;

/// What a seat at the latch knows. It exists in the proofs alone: no value of it is made.
pub struct View<E> {
    /// How many parts of the latch it has.
    pub parts: u64,
    /// Whether it is the one that leads.
    pub leads: bool,
    /// The beginning of the history that it has seen.
    pub seen: LinkedList<E>,
    /// What a seat that joined it had seen, until it looks for itself.
    pub told: LinkedList<E>,
    /// The events of its own turns.
    pub own: LinkedList<E>,
    /// Its ticket, until that is served.
    pub ticket: Option<u64>,
    /// Whether it is in turn, and so holds the slot with the value.
    pub in_turn: bool,
}
