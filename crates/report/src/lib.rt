// The stream (docs/STREAM.md): a record of 64 bytes read, and the line that a call prints.
#![tactic(auto)]

pub mod call;
pub mod line;
pub mod record;
