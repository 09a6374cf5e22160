// Demand 3: what the allowance of visits changes, and how many visits suffice, for every points and table lists
// whatever they hold. The crate has no code.
#![tactic(auto)]
