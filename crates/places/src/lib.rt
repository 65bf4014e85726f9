// Places in bytes: where an element stands, and whether it can act, on the bytes of an accepted state's root list.
#![tactic(auto)]

mod acting;
mod locating;
mod striding;

pub use acting::{all_blocked, can_act};
pub use locating::{find, place_of, spot_at};
pub use striding::{PlacesOf, places_of, stride};

// Where an element stands: its offset, the offsets of the ambient that holds it and of the ambient around that one, and how many ambients are around it.
#[derive(Clone, Copy)]
pub struct Spot {
    pub at: usize,
    pub within: usize,
    pub around: usize,
    pub level: usize,
}
