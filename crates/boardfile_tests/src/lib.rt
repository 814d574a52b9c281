// Tests of the board file: its reader, its writer and its words.
#![tactic(auto)]

#[cfg(test)]
mod cases;
#[cfg(test)]
mod example;
#[cfg(test)]
mod limits;
#[cfg(test)]
mod words;
#[cfg(test)]
mod writing;
