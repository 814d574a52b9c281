// What a board file says: the settings of a board, and the calls made to it.
ghost use Rattle.std.specs.Prelude.{◌≡◌, Some, codes};

use calls::call::Call;
use std::error::Error;
use std::fmt;

// Bytes that lay out no value of the type that is asked for.
#[derive(Clone, Copy, PartialEq, Eq, Debug)]
pub struct NoLayout;

impl fmt::Display for NoLayout {
    ghost output = { λ _. Some (codes "the bytes are no layout") };

    fn fmt<W: fmt::Write>(&self, f: &mut fmt::Formatter<W>) -> fmt::Result {
        f.write_str("the bytes are no layout")
    }
}

impl Error for NoLayout {}

#[derive(Clone, Copy, PartialEq, Eq, Debug)]
pub enum LineKind {
    FirstCome = 0,
    RoundRobin = 1,
}

impl From<LineKind> for u8 {
    ghost use Rattle.boardfile.specs.Layout.{line_byte};

    ghost from_gives = { λ kind byte. byte ≡ line_byte kind };

    fn from(kind: LineKind) -> u8 {
        kind as u8
    }
}

impl TryFrom<u8> for LineKind {
    ghost use Rattle.boardfile.specs.Layout.{line_byte, Decodes};

    type Error = NoLayout;

    ghost try_from_gives = { Decodes line_byte };

    fn try_from(byte: u8) -> Result<LineKind, NoLayout> {
        match byte {
            0 => Ok(LineKind::FirstCome),
            1 => Ok(LineKind::RoundRobin),
            _ => Err(NoLayout),
        }
    }
}

impl fmt::Display for LineKind {
    ghost use Rattle.boardfile.specs.Words.{line_word};

    ghost output = { λ kind. Some (line_word kind) };

    fn fmt<W: fmt::Write>(&self, f: &mut fmt::Formatter<W>) -> fmt::Result {
        f.write_str(match self {
            LineKind::FirstCome => "first-come",
            LineKind::RoundRobin => "round-robin",
        })
    }
}

// By the names of the two policies: an `Option` of a delay would not say what none means, and there may be more kinds than two.
#[derive(Clone, Copy, PartialEq, Eq, Debug)]
pub enum PolicyKind {
    Immediate,
    Deferred { delay: u16 },
}

impl From<PolicyKind> for [u8; 3] {
    ghost use Rattle.boardfile.specs.Layout.{policy_bytes};

    ghost from_gives = { λ kind bytes. bytes ≡ policy_bytes kind };

    fn from(kind: PolicyKind) -> [u8; 3] {
        match kind {
            PolicyKind::Immediate => [0, 0, 0],
            PolicyKind::Deferred { delay } => {
                let [high, low] = delay.to_be_bytes();
                [1, high, low]
            }
        }
    }
}

impl TryFrom<[u8; 3]> for PolicyKind {
    ghost use Rattle.boardfile.specs.Layout.{policy_bytes, Decodes};

    type Error = NoLayout;

    ghost try_from_gives = { Decodes policy_bytes };

    fn try_from(bytes: [u8; 3]) -> Result<PolicyKind, NoLayout> {
        match bytes {
            [0, 0, 0] => Ok(PolicyKind::Immediate),
            [1, high, low] => Ok(PolicyKind::Deferred {
                delay: u16::from_be_bytes([high, low]),
            }),
            _ => Err(NoLayout),
        }
    }
}

impl fmt::Display for PolicyKind {
    ghost use Rattle.boardfile.specs.Words.{policy_words};

    ghost output = { λ kind. Some (policy_words kind) };

    fn fmt<W: fmt::Write>(&self, f: &mut fmt::Formatter<W>) -> fmt::Result {
        match self {
            PolicyKind::Immediate => write!(f, "immediate"),
            PolicyKind::Deferred { delay } => write!(f, "deferred {delay}"),
        }
    }
}

#[derive(Clone, Copy, PartialEq, Eq, Debug)]
pub enum DeviceKind {
    Registers = 0,
    Converter = 1,
}

// Alike to the impls of `LineKind`: std wants one for each type, and a macro of one's own may write none.
impl From<DeviceKind> for u8 {
    ghost use Rattle.boardfile.specs.Layout.{device_byte};

    ghost from_gives = { λ kind byte. byte ≡ device_byte kind };

    fn from(kind: DeviceKind) -> u8 {
        kind as u8
    }
}

impl TryFrom<u8> for DeviceKind {
    ghost use Rattle.boardfile.specs.Layout.{device_byte, Decodes};

    type Error = NoLayout;

    ghost try_from_gives = { Decodes device_byte };

    fn try_from(byte: u8) -> Result<DeviceKind, NoLayout> {
        match byte {
            0 => Ok(DeviceKind::Registers),
            1 => Ok(DeviceKind::Converter),
            _ => Err(NoLayout),
        }
    }
}

impl fmt::Display for DeviceKind {
    ghost use Rattle.boardfile.specs.Words.{device_word};

    ghost output = { λ kind. Some (device_word kind) };

    fn fmt<W: fmt::Write>(&self, f: &mut fmt::Formatter<W>) -> fmt::Result {
        f.write_str(match self {
            DeviceKind::Registers => "registers",
            DeviceKind::Converter => "converter",
        })
    }
}

#[derive(Clone, Copy, PartialEq, Eq, Debug)]
pub struct Settings {
    pub clients: u8,
    // The places of the waiting line.
    pub places: u8,
    // The tasks, the grant task among them.
    pub tasks: u8,
    pub line: LineKind,
    pub policy: PolicyKind,
    pub device: DeviceKind,
}

impl From<Settings> for [u8; 8] {
    ghost use Rattle.boardfile.specs.Layout.{settings_bytes};

    ghost from_gives = { λ settings bytes. bytes ≡ settings_bytes settings };

    fn from(settings: Settings) -> [u8; 8] {
        let Settings {
            clients,
            places,
            tasks,
            line,
            policy,
            device,
        } = settings;
        let [kind, high, low] = <[u8; 3]>::from(policy);
        [
            clients,
            places,
            tasks,
            u8::from(line),
            kind,
            high,
            low,
            u8::from(device),
        ]
    }
}

impl fmt::Display for Settings {
    ghost use Rattle.boardfile.specs.Words.{settings_words};

    ghost output = { λ settings. Some (settings_words settings) };

    fn fmt<W: fmt::Write>(&self, f: &mut fmt::Formatter<W>) -> fmt::Result {
        let Settings {
            clients,
            places,
            tasks,
            line,
            policy,
            device,
        } = self;
        write!(
            f,
            "clients {clients} places {places} tasks {tasks} line {line} policy {policy} device {device}"
        )
    }
}

// The most events that a board file can have.
pub const MOST_EVENTS: u16 = 4096;

#[derive(Drop)]
pub struct BoardFile {
    pub settings: Settings,
    pub events: Vec<Call>,
}
