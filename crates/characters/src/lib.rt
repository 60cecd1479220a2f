// UTF-8.
#![tactic(auto)]

pub mod utf8;
