// What a poster or a drainer knows. Contracts alone speak of it.
use crate::posting::Posting;
use std::collections::LinkedList;

/// How far a poster has come with a posting.
pub enum Flight {
    /// No claim is in flight.
    Idle,
    /// A place is claimed, and the claim found so many held.
    Claimed(u64),
    /// A number is drawn.
    Drawn(Posting),
    /// The handle is stored, and the gate not yet.
    Written(Posting),
}

/// The postings of a poster that was joined.
pub struct Ended {
    pub number: u64,
    pub posted: LinkedList<Posting>,
}

/// How far the drainer has come with the next posting.
pub enum Stage {
    /// It has taken none.
    Resting,
    /// Its gate was found full.
    Seen(Posting),
    /// Its gate is cleared, and its place is still held.
    Cleared,
}

/// What a poster or a drainer knows. A new ring's one view is both.
pub struct View {
    /// Whether it is the drainer's.
    pub drains: bool,
    /// The postings taken.
    pub got: LinkedList<Posting>,
    /// How many loads of a gate were made, and what the last one found: 0 for an empty gate.
    pub loads: u64,
    pub gate: u64,
    pub stage: Stage,
    /// Whether it is a poster's, and the poster's number.
    pub posts: bool,
    pub number: u64,
    /// The poster's postings.
    pub posted: LinkedList<Posting>,
    /// How many claims were made, and how many places the last one found held or in flight.
    pub claims: u64,
    pub found: u64,
    pub flight: Flight,
    /// Whether it is the root poster's.
    pub root: bool,
    /// How many posters were made, and how many of them are not joined.
    pub posters: u64,
    pub children: u64,
    /// The lists of the posters that were joined.
    pub ended: LinkedList<Ended>,
}
