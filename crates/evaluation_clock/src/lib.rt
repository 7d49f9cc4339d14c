// The clock of a round, one stop at a time: windows, waiting, lateness and the rest.
#![tactic(auto)]

pub mod clock;
pub mod label;
pub mod window;
