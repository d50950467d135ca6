// What one peer's key is to another's row: definitions and theorems, no code.
#![tactic(auto)]
