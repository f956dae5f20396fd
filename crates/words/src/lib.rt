// The words of a header: its lines, the fields of its last line, and the axes and sizes that they say.
#![tactic(auto)]

pub mod axes;
pub mod fields;
pub mod lines;
pub mod sizes;
