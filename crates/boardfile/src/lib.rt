// The board file: its parts, its reader and its writer.
#![tactic(auto)]

mod buffer;
mod count;
mod event;
mod events;
pub mod fault;
pub mod parts;
pub mod reader;
mod settings;
pub mod writer;
