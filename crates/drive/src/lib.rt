// A script of disk calls, made on any disk.
#![tactic(auto)]

pub mod call;
pub mod run;
