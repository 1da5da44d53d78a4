// What a chair knows.
use std::collections::LinkedList;

/// What a chair knows and has, as plain data for contracts. No value of it is made. A pair is of a
/// slot and a round, or of a slot and a word.
pub struct View<M> {
    /// The slots into which it put, each with the round, in order.
    pub puts: LinkedList<(u64, u64)>,
    /// Those from which it claimed.
    pub claims: LinkedList<(u64, u64)>,
    /// Those from which it collected.
    pub collections: LinkedList<(u64, u64)>,
    /// The slot that was claimed and hasn't been given yet, with its round.
    pub claimed: Option<(u64, u64)>,
    /// The slots that were seen EMPTY in this turn, and into which nothing was put since, with the round.
    pub noted: LinkedList<(u64, u64)>,
    /// The slot that is in hand during a call, with the word seen.
    pub hand: Option<(u64, u64)>,
    /// The words that were seen in slots, in order.
    pub seen: LinkedList<(u64, u64)>,
    /// The words of the turn that were seen, in order.
    pub turns_seen: LinkedList<u64>,
    /// 1 with the turn, and else 0.
    pub turn: u64,
    /// The numbers of the chairs that this one counts for: its own, and those of chairs that joined it; none once it
    /// is spent.
    pub numbers: LinkedList<u64>,
    /// How many chairs the board has, at chair 0; else 0.
    pub count: u64,
    /// The board's name; `None` once the chair is spent.
    pub name: Option<M>,
}
