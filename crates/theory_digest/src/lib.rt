// The digest, and the counts over all keys: definitions and theorems, no code.
#![tactic(auto)]
