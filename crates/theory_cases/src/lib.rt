// Document 01's starred cases: a table and its theorem, no code.
#![tactic(auto)]
