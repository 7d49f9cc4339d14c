#![tactic(auto)]

// Lists and how often a number stands in them: the definitions and laws are this crate's specs.
