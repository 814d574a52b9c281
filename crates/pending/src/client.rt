// The clients of a bus.
use crate::id::{Id, Kind};

// The kind of a client's number.
pub enum ClientKind {}

impl Kind for ClientKind {
    const NAME: &'static str = "Client";
}

pub type Client = Id<ClientKind>;
