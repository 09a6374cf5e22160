// What was asked for, in one theorem for each question: what the reply is in the words of plain geometry, after how
// many visits, and at what allowance. The crate has no code.
#![tactic(auto)]
