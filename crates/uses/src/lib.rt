#![tactic(auto)]

// Which names a process uses as boxes and which as channels: theory, no code.
