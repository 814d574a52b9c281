// A line that is neither of the two, code over any line, the example of round robin, and tests of lists and lines.
#![tactic(auto)]

pub mod again;
pub mod example;
pub mod one_place;
pub mod swap;
#[cfg(test)]
mod tests;
