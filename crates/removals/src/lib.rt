#![tactic(auto)]

// Removing empty ambients on trees, definitions and theorems, and no code.
