// The state of a job, in the cabinet: theory, no code.
#![tactic(auto)]
