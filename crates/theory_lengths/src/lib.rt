// Messages of different length under one key: definitions and theorems, no code.
#![tactic(auto)]
