// Theorems about tables of 32-bit numbers: each number of an old table fits 32 bits, and an old table, widened, is the
// one that the builder writes. The crate has no code.
#![tactic(auto)]
