// What is wrong with a board file, and where.
ghost use Rattle.std.specs.Prelude.{◌≡◌, Some};
ghost use Rattle.boardfile.specs.declared.fault.ReadError.TheVariants as read;
ghost use Rattle.boardfile.specs.declared.fault.WriteError.TheVariants as write;

use calls::refusal::Refusal;
use std::alloc::AllocFailed;
use std::error::Error;
use std::fmt;

#[derive(Clone, Copy, PartialEq, Eq, Debug)]
pub enum FaultKind {
    // The settings are refused as a board's would be.
    Clients,
    Places,
    Tasks,
    // A count or a record is not there, or not whole.
    Missing,
    // A count is not allowed.
    Count,
    // A record is no layout of settings or of an event.
    Unfit,
    // Bytes follow the last record.
    Trailing,
}

impl FaultKind {
    ghost use Rattle.boardfile.specs.Numbers.{fault_number, OnlyKind};

    // No `From`, which would be no plainer: the number of a refusal is asked for by `number` too.
    pub fn number(self) -> u8
        ensures answer { result ≡ fault_number self }
        ensures only { OnlyKind self }
    {
        match self {
            FaultKind::Clients => Refusal::ClientsOutOfRange.number(),
            FaultKind::Places => Refusal::PlacesOutOfRange.number(),
            FaultKind::Tasks => Refusal::TasksOutOfRange.number(),
            FaultKind::Missing => 21,
            FaultKind::Count => 22,
            FaultKind::Unfit => 23,
            FaultKind::Trailing => 24,
        }
    }
}

// The sections of a board file, in their order.
#[derive(Clone, Copy, PartialEq, Eq, Debug)]
pub enum Section {
    Settings = 1,
    Events = 2,
}

impl Section {
    ghost use Rattle.boardfile.specs.Numbers.{section_number, OnlySection};

    pub fn number(self) -> u8
        ensures answer { result ≡ section_number self }
        ensures only { OnlySection self }
    {
        self as u8
    }
}

// The place is the section, from 1, and the record in it, from 0: a tuple of numbers, as it is told. Whoever holds a fault may
// name any section; `new` makes those of a board file.
#[derive(Clone, Copy, PartialEq, Eq, Debug)]
pub struct Fault {
    pub kind: FaultKind,
    pub place: (u8, u16),
}

impl Fault {
    ghost use Rattle.boardfile.specs.Faults.{At};

    pub fn new(kind: FaultKind, section: Section, index: u16) -> Fault
        ensures { At kind section index result }
    {
        Fault {
            kind,
            place: (section.number(), index),
        }
    }
}

impl fmt::Display for Fault {
    ghost use Rattle.boardfile.specs.Words.{fault_words};

    ghost output = { λ fault. Some (fault_words fault) };

    fn fmt<W: fmt::Write>(&self, f: &mut fmt::Formatter<W>) -> fmt::Result {
        let number = self.kind.number();
        let (section, index) = self.place;
        write!(f, "file {number} {section} {index}")
    }
}

impl Error for Fault {}

// Why a board file was not read.
#[derive(Clone, Copy, PartialEq, Eq, Debug)]
pub enum ReadError {
    Faulty(Fault),
    NoMemory,
}

// Words by hand, here and below: a derive of `thiserror` would promise none of them.
impl fmt::Display for ReadError {
    ghost use Rattle.boardfile.specs.Words.{read_error_words};

    ghost output = { λ error. Some (read_error_words error) };

    fn fmt<W: fmt::Write>(&self, f: &mut fmt::Formatter<W>) -> fmt::Result {
        match self {
            ReadError::Faulty(fault) => write!(f, "{fault}"),
            ReadError::NoMemory => write!(f, "out of memory"),
        }
    }
}

impl Error for ReadError {}

impl From<Fault> for ReadError {
    ghost from_gives = { λ f r. r ≡ read.Faulty f };

    fn from(fault: Fault) -> ReadError {
        ReadError::Faulty(fault)
    }
}

impl<T: Drop> From<AllocFailed<T>> for ReadError {
    ghost from_gives = { λ _ r. r ≡ read.NoMemory };

    fn from(_e: AllocFailed<T>) -> ReadError {
        ReadError::NoMemory
    }
}

// Why a board file was not written. Not one type with `ReadError`: each has a case that cannot come on the other side.
#[derive(Clone, Copy, PartialEq, Eq, Debug)]
pub enum WriteError {
    Faulty(Fault),
    TooSmall,
}

impl WriteError {
    ghost use Rattle.boardfile.specs.Numbers.{write_number};

    // No `From`: faults of one kind share their number.
    pub fn number(self) -> u8
        ensures { result ≡ write_number self }
    {
        match self {
            WriteError::Faulty(fault) => fault.kind.number(),
            WriteError::TooSmall => 25,
        }
    }
}

impl fmt::Display for WriteError {
    ghost use Rattle.boardfile.specs.Words.{write_error_words};

    ghost output = { λ error. Some (write_error_words error) };

    fn fmt<W: fmt::Write>(&self, f: &mut fmt::Formatter<W>) -> fmt::Result {
        match self {
            WriteError::Faulty(fault) => write!(f, "{fault}"),
            WriteError::TooSmall => write!(f, "the buffer is too small"),
        }
    }
}

impl Error for WriteError {}

impl From<Fault> for WriteError {
    ghost from_gives = { λ f r. r ≡ write.Faulty f };

    fn from(fault: Fault) -> WriteError {
        WriteError::Faulty(fault)
    }
}
