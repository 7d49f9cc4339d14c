// What a replay reads and writes: the parts of a record, and the lines for the answers.
#![tactic(auto)]

pub mod line;
pub mod record;
