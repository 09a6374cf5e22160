// What the answers of IN mean: on-edge, inside and outside by the plain rule, for every sound table. No code.
#![tactic(auto)]
