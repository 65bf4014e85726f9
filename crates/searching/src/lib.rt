// The search for the answers to an action, on the bytes of an accepted state's root list: one engine for partners and blocked pairs.
#![tactic(auto)]

mod asking;
mod pairing;

pub use asking::{ask, count_answers, is_one};
pub use pairing::paired;

// Where a list starts and ends.
#[derive(Clone, Copy)]
pub struct Span {
    pub start: usize,
    pub end: usize,
}
