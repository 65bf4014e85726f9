// What the numbers of the C interface tell: theory, no code.
#![tactic(auto)]
