// Theorems about the checker of tables: what it accepts is sound, and only that; which row a refusal names; and that a
// table which the builder wrote is accepted. The crate has no code.
#![tactic(auto)]
