#![tactic(auto)]
// Definitions and laws on lists, for every crate above: no code.
