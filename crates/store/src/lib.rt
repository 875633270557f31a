// What stands on the disk of a store: the header of its log, and look, which shows one block of the plan on any reader.
#![tactic(auto)]

pub mod header;
pub mod look;
pub mod look_refusal;
