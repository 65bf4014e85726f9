// Reads jobs and states. The public functions assume nothing of their input.
#![tactic(auto)]

mod parsing;

pub use parsing::{read_job, read_state, read_within};

// Of an accepted state: F, below which names are free, and N, the next unused name.
#[derive(Clone, Copy)]
pub struct Names {
    pub free: usize,
    pub next: usize,
}
