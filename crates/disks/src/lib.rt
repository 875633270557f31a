// The bottom layer: what a block, a cause, a state, a reader and a disk are, and the read-only image.
#![tactic(auto)]

pub mod block;
pub mod cause;
pub mod disk;
pub mod image;
pub mod lawful_reader;
pub mod reader;
pub mod refusal;
pub mod side;
pub mod state;
pub mod trail;
