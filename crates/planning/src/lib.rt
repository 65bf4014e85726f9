// What a step changes, as a plan: theory of the moves that the code chooses and performs. No code.
#![tactic(auto)]

use rewriting::Plan;

// A step that can be taken: its rule, the next unused name after it, how long the state after it is, and what it changes.
#[derive(Clone, Copy)]
pub struct Move {
    pub rule: u8,
    pub names: usize,
    pub length: usize,
    pub plan: Plan,
}
