// Theorems about the written walk, whatever its visit does, and what the theorems about all four questions share: the
// checks before a walk, good rows, what a row holds, sound tables, and what a reply says. The crate has no code.
#![tactic(auto)]
