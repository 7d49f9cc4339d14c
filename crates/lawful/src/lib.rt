#![tactic(auto)]

// A lawful round, as a definition over natural numbers. The crate's substance is its specs.
