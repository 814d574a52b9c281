// What can be said to a board, and what it answers.
#![tactic(auto)]

pub mod answer;
pub mod call;
pub mod refusal;
