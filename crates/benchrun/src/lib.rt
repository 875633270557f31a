// The whole run of diskrun: from the bytes of its input to the text that it prints.
#![tactic(auto)]

pub mod input;
mod kind;
pub mod stands;
