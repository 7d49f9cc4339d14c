// What the constructors share: the terms of a depot, the tables that they fill, and the members that they take from them.
#![tactic(auto)]

pub mod load;
pub mod marks;
pub mod members;
pub mod tables;
pub mod terms;
