// The geometry of one visit of MEET, for rows and points on the sheet: whether two nodes are dismissed by their boxes
// and strips (`strips`), and whether two segments share a point (`segments`). Each promise is a definition of `rules`.
#![tactic(auto)]

pub mod segments;
pub mod strips;
