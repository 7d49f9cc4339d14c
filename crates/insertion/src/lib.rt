// What insertion and the limiter share: the places of a round for one stop, the round on trial, and the best choice so far.
#![tactic(auto)]

pub mod choice;
pub mod place;
pub mod places;
pub mod trial;
