// The text that the run programs take and print: lines, numbers, schedules and answers.
#![tactic(auto)]

pub mod answer;
pub mod line;
pub mod number;
pub mod piece;
pub mod schedule_line;
pub mod word;
