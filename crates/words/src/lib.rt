// The listing of a board file.
#![tactic(auto)]

pub mod listing;
