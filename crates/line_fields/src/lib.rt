// The fields of a replay line, and buffers as they are lent.
#![tactic(auto)]

pub mod lent;
pub mod text;
