// The log: records, groups and the log itself, read from the front of a slice and written into one; stores that are counted.
#![tactic(auto)]

pub mod found;
pub mod group;
pub mod number;
pub mod record;
pub mod scan;
pub mod stop;
pub mod stores;

// A transaction id. 0 is never given.
#[repr(C)]
#[derive(Clone, Copy, PartialEq, Eq, PartialOrd, Ord)]
pub struct TxId(pub u16);

// A commit sequence number (document 01: commit number). 0 stands for "none yet".
#[repr(C)]
#[derive(Clone, Copy, PartialEq, Eq, PartialOrd, Ord)]
pub struct Csn(pub u32);
