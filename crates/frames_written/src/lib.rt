// The file of a frame: how long it is, and its bytes.
#![tactic(auto)]

pub mod frame;
pub mod pixels;
pub mod samples;
