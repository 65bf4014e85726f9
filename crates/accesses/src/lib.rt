// Lists of accesses to the front panel: theory, no code.
#![tactic(auto)]
