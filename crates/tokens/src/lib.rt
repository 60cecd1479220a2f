// Theorems on the tokens of a text: no code.
#![tactic(auto)]
