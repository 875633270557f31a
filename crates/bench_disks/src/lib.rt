// Bench disks: disks in memory that fail by a schedule.
#![tactic(auto)]

pub mod buffered;
mod cache;
pub mod disk;
mod faults;
mod holding;
mod memory;
pub mod plain;
mod waiting;
