// The largest count of any pair of messages at seven bits: definitions and theorems, no code.
#![tactic(auto)]
