// The step in bytes as a definition, and lists of step calls: theory, no code.
#![tactic(auto)]
