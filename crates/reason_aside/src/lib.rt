#![tactic(auto)]

// Where the offers of a stop set aside end, and that its lone round fails there: the crate's substance is its specs.
