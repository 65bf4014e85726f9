// The answers that stand in a list and in its ambients, on the bytes of a list: which elements are wanted, and their tally by a question.
#![tactic(auto)]

mod matching;

pub use matching::{is_settled, is_wanted, note};

// What an answer has to be: the tag of its kind, its channel and where that stands in the element, how many names it hands over or takes, and the ambient that it must name, or none for any.
#[derive(Clone, Copy)]
pub struct Want {
    pub tag: u8,
    pub at: usize,
    pub channel: usize,
    pub count: usize,
    pub target: Option<usize>,
}

// Only the answers at these offsets count, up to the last where there is a bound; `once` leaves at the first.
#[derive(Clone, Copy)]
pub struct Question {
    pub from: usize,
    pub to: Option<usize>,
    pub once: bool,
}

// The offset of the lowest answer, if there is any, and how many there are.
#[derive(Clone, Copy)]
pub struct Tally {
    pub lowest: Option<usize>,
    pub number: usize,
}
