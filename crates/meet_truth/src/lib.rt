// Demand 2 for MEET: a decided answer is yes exactly when some segment of A and some of B share a point, for every pair
// of tables whose rows are good and hold their points. The crate has no code.
#![tactic(auto)]
