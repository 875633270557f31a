// Schedules, by which bench disks fail.
#![tactic(auto)]

pub mod schedule;
