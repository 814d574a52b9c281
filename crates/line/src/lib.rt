// Waiting lines.
#![tactic(auto)]

pub mod first_come;
pub mod line;
pub mod round_robin;
mod size;
