// The store: transactions over any disk.
#![tactic(auto)]

mod disk_work;
pub mod phase;
pub mod plan_store;
mod recovery;
pub mod store_refusal;
pub mod ticket;
