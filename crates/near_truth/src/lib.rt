// Demand 2 for NEAR and AGREE: what a yes and a no are worth, for every table whose rows are good and hold their
// points. The crate has no code.
#![tactic(auto)]
