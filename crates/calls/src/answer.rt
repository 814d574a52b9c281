// What a board answers to a call.
ghost use Rattle.std.specs.Prelude.{◌≡◌, false, Some};
ghost use Rattle.calls.specs.Answers.{answer_number, answer_value, is_refused};
ghost use Rattle.calls.specs.Words.{failure_words};

use crate::refusal::Refusal;
use std::error::Error;
use std::fmt;

// The transfer failed, with this byte.
#[derive(Clone, Copy, PartialEq, Eq, Debug)]
pub struct TransferFailed {
    pub byte: u8,
}

impl fmt::Display for TransferFailed {
    ghost output = { λ failed. Some (failure_words failed) };

    fn fmt<W: fmt::Write>(&self, f: &mut fmt::Formatter<W>) -> fmt::Result {
        let byte = self.byte;
        write!(f, "failed {byte}")
    }
}

impl Error for TransferFailed {}

// One enum for all cases, and no `Result`: each has a number and a value, by methods that std's type cannot be given.
#[derive(Clone, Copy, PartialEq, Eq, Debug)]
pub enum Answer {
    Okay,
    Granted { client: u8 },
    Ran { task: u8 },
    // What the transfer brought.
    Collected(Result<u8, TransferFailed>),
    Refused(Refusal),
}

impl Answer {
    // 0 for a call that was performed, else the number of its refusal. No `From`: many answers share 0.
    pub fn number(self) -> u8
        ensures answer { result ≡ answer_number self }
        ensures performed { result ≡ 0 → is_refused self ≡ false }
    {
        match self {
            Answer::Refused(refusal) => refusal.number(),
            _ => 0,
        }
    }

    // The value told beside the number: a client, a task, a transfer's byte or a verdict.
    pub fn value(self) -> Option<u8>
        ensures { result ≡ answer_value self }
    {
        match self {
            Answer::Granted { client } => Some(client),
            Answer::Ran { task } => Some(task),
            Answer::Collected(Ok(byte) | Err(TransferFailed { byte })) => Some(byte),
            Answer::Refused(refusal) => refusal.value(),
            Answer::Okay => None,
        }
    }
}
