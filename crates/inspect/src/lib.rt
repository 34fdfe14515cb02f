// What is looked up on a disk without a state. Nothing is stored on it.
#![tactic(auto)]

pub mod groups;
pub mod outcomes;
pub mod page;
