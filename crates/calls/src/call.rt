// The calls that a board takes.
ghost use Rattle.std.specs.Prelude.{◌≡◌, Some};
ghost use Rattle.calls.specs.Calls.{call_number, OnlyCall};
ghost use Rattle.calls.specs.Words.{call_words};

use std::fmt;

// What a transfer asks of the device.
#[derive(Clone, Copy, PartialEq, Eq, Debug)]
pub struct Order {
    // The byte as it came: which kinds there are, each device says itself.
    pub kind: u8,
    pub address: u16,
    pub value: u8,
}

// Numbers stand as they came: whether there is such a client or task is asked at the door.
#[derive(Clone, Copy, PartialEq, Eq, Debug)]
pub enum Call {
    // The client asks for the bus, and waits for its grant.
    Request { client: u8 },
    // The client asks for the bus now or not at all.
    Immediate { client: u8 },
    // The owner gives the bus back.
    Release { client: u8 },
    // The owner begins a transfer.
    Begin { client: u8, order: Order },
    // The owner fetches the outcome of its transfer.
    Collect { client: u8 },
    // The interrupt that the device has settled or drained.
    Ready,
    // The interrupt that the transfer is done: well at mark 0, and failed at any other. No `Result`, since each mark is a call of its own.
    Done { mark: u8, byte: u8 },
    // The clock.
    Tick,
    // A task is put into the task list.
    Post { task: u8 },
    // The oldest task is run.
    Run,
}

impl Call {
    // The number of its kind. No `From`: it does not lead back to the call.
    pub fn number(self) -> u8
        ensures answer { result ≡ call_number self }
        ensures only { OnlyCall self }
    {
        match self {
            Call::Request { .. } => 0,
            Call::Immediate { .. } => 1,
            Call::Release { .. } => 2,
            Call::Begin { .. } => 3,
            Call::Collect { .. } => 4,
            Call::Ready => 5,
            Call::Done { .. } => 6,
            Call::Tick => 7,
            Call::Post { .. } => 8,
            Call::Run => 9,
        }
    }
}

impl fmt::Display for Call {
    ghost output = { λ call. Some (call_words call) };

    fn fmt<W: fmt::Write>(&self, f: &mut fmt::Formatter<W>) -> fmt::Result {
        match *self {
            Call::Request { client } => write!(f, "request client {client}"),
            Call::Immediate { client } => write!(f, "immediate client {client}"),
            Call::Release { client } => write!(f, "release client {client}"),
            Call::Begin { client, order } => {
                let Order {
                    kind,
                    address,
                    value,
                } = order;
                write!(
                    f,
                    "begin client {client} kind {kind} address {address} value {value}"
                )
            }
            Call::Collect { client } => write!(f, "collect client {client}"),
            Call::Ready => write!(f, "ready"),
            Call::Done { mark, byte } => write!(f, "done mark {mark} byte {byte}"),
            Call::Tick => write!(f, "tick"),
            Call::Post { task } => write!(f, "post task {task}"),
            Call::Run => write!(f, "run"),
        }
    }
}
