// How often two different messages match: definitions and theorems, no code.
#![tactic(auto)]
