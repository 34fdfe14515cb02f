// The disk: restart, what a disk means, and whether two mean the same.
#![tactic(auto)]

pub mod call;
pub mod equal;
pub mod examine;
pub mod open;
