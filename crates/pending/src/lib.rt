// The once-pending list, and the keys that can be pending.
#![tactic(auto)]

pub mod client;
pub mod id;
pub mod key;
pub mod list;
pub mod task;
