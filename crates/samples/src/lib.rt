// The sample texts of the scope, proved: no code.
#![tactic(auto)]
