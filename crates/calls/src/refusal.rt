// The refusals of a board: at the door of its calls, and where it and its parts are made.
ghost use Rattle.std.specs.Prelude.{◌≡◌, ◌↔◌, IsTrue, Some};
ghost use Rattle.calls.specs.declared.refusal.Refusal.{Refusal};
ghost use Rattle.calls.specs.Refusals.{refusal_number, refusal_value, OnlyRefusal, refusal_eq};
ghost use Rattle.calls.specs.Words.{refusal_words};

use std::error::Error;
use std::fmt;

// The first question that was answered 'no'.
#[derive(Clone, Copy, PartialEq, Eq, Debug)]
pub enum Refusal {
    NoSuchClient,
    // The client waits, or its grant is coming.
    AlreadyRequested,
    LineFull,
    // The phase is neither idle nor off with a prompt device.
    NotFreeAtOnce,
    NotOwner,
    TransferNotQuiet,
    // The device's verdict on the order, a number of that device's own.
    OrderRejected { verdict: u8 },
    NoTransfer,
    TransferNotFinished,
    // The phase is neither warming nor draining.
    PowerNotChanging,
    NoTransferRunning,
    NoSuchTask,
    // Only the bus posts the grant task.
    GrantTask,
    AlreadyPending,
    NoTaskPending,
    ClientsOutOfRange,
    PlacesOutOfRange,
    TasksOutOfRange,
    // The line is for another number of clients, or somebody waits in it.
    LineNotFresh,
    DeviceNotAtRest,
}

impl Refusal {
    // The number of the question. No `From`: without the value it does not lead back to the refusal.
    pub fn number(self) -> u8
        ensures answer { result ≡ refusal_number self }
        ensures only { OnlyRefusal self }

        // Refusals are compared by number and value, and so are equal only to themselves.
        ensures compared { (other : Refusal) → ⟦<Refusal as PartialEq>⟧.eq self other ≡ refusal_eq self other }
        ensures equal { (other : Refusal) → IsTrue (⟦<Refusal as PartialEq>⟧.eq self other) ↔ (self ≡ other) }
    {
        match self {
            Refusal::NoSuchClient => 1,
            Refusal::AlreadyRequested => 2,
            Refusal::LineFull => 3,
            Refusal::NotFreeAtOnce => 4,
            Refusal::NotOwner => 5,
            Refusal::TransferNotQuiet => 6,
            Refusal::OrderRejected { .. } => 7,
            Refusal::NoTransfer => 8,
            Refusal::TransferNotFinished => 9,
            Refusal::PowerNotChanging => 10,
            Refusal::NoTransferRunning => 11,
            Refusal::NoSuchTask => 12,
            Refusal::GrantTask => 13,
            Refusal::AlreadyPending => 14,
            Refusal::NoTaskPending => 15,
            Refusal::ClientsOutOfRange => 16,
            Refusal::PlacesOutOfRange => 17,
            Refusal::TasksOutOfRange => 18,
            Refusal::LineNotFresh => 19,
            Refusal::DeviceNotAtRest => 20,
        }
    }

    // The value told beside the number: the device's verdict on a rejected order.
    pub fn value(self) -> Option<u8>
        ensures { result ≡ refusal_value self }
    {
        match self {
            Refusal::OrderRejected { verdict } => Some(verdict),
            _ => None,
        }
    }
}

// In the words of a report.
impl fmt::Display for Refusal {
    ghost output = { λ refusal. Some (refusal_words refusal) };

    fn fmt<W: fmt::Write>(&self, f: &mut fmt::Formatter<W>) -> fmt::Result {
        let number = self.number();
        match self.value() {
            Some(value) => write!(f, "no {number} {value}"),
            None => write!(f, "no {number}"),
        }
    }
}

impl Error for Refusal {}
