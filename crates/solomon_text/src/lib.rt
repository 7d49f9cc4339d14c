// Solomon's text (1987): its lines, their words and the whole numbers that these are.
#![tactic(auto)]

pub mod lines;
mod number;
pub mod words;
