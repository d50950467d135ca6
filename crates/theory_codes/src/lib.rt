// How many keys give two messages one code: definitions and theorems, no code.
#![tactic(auto)]
