// The run in bytes as a definition, and its turns: theory, no code.
#![tactic(auto)]
