// Which numbers refuse the readers, each call and a turn of a run: theory, no code.
#![tactic(auto)]
