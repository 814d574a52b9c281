// The count that each section begins with.
ghost use Rattle.std.specs.Prelude.{◌≡◌, ◌<◌, ◌≤◌, ◌∷◌, length, drop, IfOk, IfErr, OnErr};
ghost use Rattle.boardfile.specs.Layout.{high, low};
ghost use Rattle.boardfile.specs.Faults.{At};

use crate::buffer::put;
use crate::fault::{Fault, FaultKind, Section};

// How many bytes a count has.
pub(crate) const LEN: usize = 2;

// The count that the bytes of a section begin with, and the bytes after it.
pub(crate) fn take_count(section: Section, bytes: &[u8]) -> Result<(u16, &[u8]), Fault>
    ensures layout { IfOk result (λ p. bytes.now ≡ high p.0 ∷ low p.0 ∷ p.1.now) }
    ensures missing { OnErr result (length bytes.now < 2) }
    ensures fault { IfErr result (At FaultKind.Missing section 0) }
{
    let [high, low, rest @ ..] = bytes else {
        return Err(Fault::new(FaultKind::Missing, section, 0));
    };
    Ok((u16::from_be_bytes([*high, *low]), rest))
}

// Writes a count at the start of the buffer.
pub(crate) fn put_count(count: u16, buf: &mut [u8])
    requires { 2 ≤ length buf.old }
    ensures { buf.new ≡ high count ∷ low count ∷ drop 2 buf.old }
{
    put(count.to_be_bytes(), buf);
}
