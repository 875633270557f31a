// The pair: two disks that hold the same, as one disk.
#![tactic(auto)]

mod copy;
pub mod pair;
pub mod refusal;
