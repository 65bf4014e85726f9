// The worked cases, and what the partners of a place say of its steps: theory. No code.
#![tactic(auto)]
