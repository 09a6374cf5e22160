// What the described table is: its rows and where they stand, the split rule, that strips and boxes hold their points,
// and that a table built without refusal is sound. The crate has no code.
#![tactic(auto)]
