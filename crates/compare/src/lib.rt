// The comparison of the plans of two stores, address by address.
#![tactic(auto)]

pub mod comparison;
pub mod difference;
pub mod images;
pub mod report;
pub mod room;
pub mod stop;
