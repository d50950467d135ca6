// An incremental digest under every run of edits: definitions and theorems, no code.
#![tactic(auto)]
