// Which stop a round takes next, by either nearest neighbour, and the round so far that it is judged by.
#![tactic(auto)]

pub mod choice;
pub mod nearest;
pub mod nn_tw;
pub mod partial;
pub mod rule;
