// Refusals, exactly: which check is told before a walk, which row a 10 names, and that a walk comes to rows of the
// table alone, for every points and table lists whatever they hold. The crate has no code.
#![tactic(auto)]
