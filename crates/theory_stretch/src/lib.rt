// What a stretch and a load leave: definitions and theorems, no code.
#![tactic(auto)]
