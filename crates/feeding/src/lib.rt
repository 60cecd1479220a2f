// Theorems on what the cut of a token depends on: no code.
#![tactic(auto)]
