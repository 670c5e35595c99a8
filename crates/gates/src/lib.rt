// The external product of a block with a sample, and the CMux ("gate") of two samples. Inside, samples have k masks.
#![tactic(auto)]

pub mod cmux;
pub mod external;
