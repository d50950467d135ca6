// What a one-word array is to the plain seed: definitions and theorems, no code.
#![tactic(auto)]
