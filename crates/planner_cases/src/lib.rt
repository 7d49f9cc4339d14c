// What is computed of the planner's contracts: the scope's table, its examples of refusals, and plans that no planner may write.
// The crate's substance is its specs.
#![tactic(auto)]
