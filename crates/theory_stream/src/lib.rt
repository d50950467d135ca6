// A stream under every cutting of a message: definitions and theorems, no code.
#![tactic(auto)]
