// What a visit of NEAR or of IN does is done by one step alone: from the written visit the step is read back. The crate
// has no code.
#![tactic(auto)]
