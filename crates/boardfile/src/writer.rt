// The writer of a board file.
ghost use Rattle.std.specs.Prelude.{◌≡◌, ◌+◌, ◌*◌, ◌≤◌, ◌∷◌, ◌++◌, length, take, drop, ◌↔◌, IfOk, IfErr, OnOk, IfNone, IfSome, IsTrue};
ghost use Rattle.std.specs.List.{flat_map};
ghost use Rattle.boardfile.specs.Layout.{event_bytes, events_bytes, settings_bytes};
ghost use Rattle.boardfile.specs.Fits.{EventFits, EventsFit, Fits};
ghost use Rattle.boardfile.specs.Faults.{UnfitAt, Unwritable};
ghost use Rattle.boardfile.specs.Reads.{ReadsAs};
ghost use Rattle.boardfile.specs.Writes.{Measures, Writes};

use crate::buffer::put;
use crate::count::put_count;
use crate::fault::{Fault, FaultKind, Section, WriteError};
use crate::parts::{BoardFile, MOST_EVENTS, Settings};
use crate::{count, event, settings};
use calls::call::Call;

// How many bytes the first section has.
const FIRST_SECTION: usize = count::LEN + settings::LEN;

// Writes the records of the events, one after another. The buffer is lent by index: of one that an iterator of chunks
// lent out, a proof knows only the length afterwards.
fn put_records(events: &[Call], buf: &mut [u8])
    requires { 6 * length events.now ≤ length buf.old }
    ensures { buf.new ≡ flat_map event_bytes events.now ++ drop (6 * length events.now) buf.old }
{
    for (index, event) in events.iter().enumerate() {
        put(event::encode(*event), &mut buf[event::LEN * index..]);
    }
}

// Writes the events section at the start of the buffer.
fn put_events(events: &[Call], buf: &mut [u8])
    requires count { length events.now ≤ 4096 }
    requires room { 2 + 6 * length events.now ≤ length buf.old }
    ensures { buf.new ≡ events_bytes events.now ++ drop (2 + 6 * length events.now) buf.old }
{
    put_count(events.len() as u16, buf);
    put_records(events, &mut buf[count::LEN..]);
}

// Writes the settings section at the start of the buffer.
fn put_settings(settings: Settings, buf: &mut [u8])
    requires { 10 ≤ length buf.old }
    ensures { buf.new ≡ 0 ∷ 1 ∷ (settings_bytes settings ++ drop 10 buf.old) }
{
    put_count(1, buf);
    put(<[u8; 8]>::from(settings), &mut buf[count::LEN..]);
}

fn fits(event: Call) -> bool
    ensures { IsTrue result ↔ EventFits event }
{
    match event {
        Call::Done { mark, .. } => mark <= 1,
        _ => true,
    }
}

// The index of the first event that does not fit.
fn first_unfit(events: &[Call]) -> Option<usize>
    ensures none { IfNone result (EventsFit events.now) }
    ensures first { IfSome result (UnfitAt events.now) }
{
    events.iter().position(|event| !fits(*event))
}

// The reader's tests of the parts.
fn check(file: &BoardFile) -> Result<(), Fault>
    ensures fit { OnOk result (Fits file.now) }
    ensures first { IfErr result (Unwritable file.now) }
{
    settings::check(file.settings)?;
    if file.events.len() > MOST_EVENTS as usize {
        return Err(Fault::new(FaultKind::Count, Section::Events, 0));
    }
    match first_unfit(file.events.as_slice()) {
        Some(index) => Err(Fault::new(FaultKind::Unfit, Section::Events, index as u16)),
        None => Ok(()),
    }
}

// The length of the file, if its parts pass the tests.
#[tactic(auto, using(crate::proofs::Lends::file_length))]
fn measure(file: &BoardFile) -> Result<usize, Fault>
    ensures measured { IfOk result (Measures file.now) }
    ensures first { IfErr result (Unwritable file.now) }
{
    check(file)?;
    Ok(FIRST_SECTION + count::LEN + event::LEN * file.events.len())
}

// Writes the file at the start of the buffer, and answers its length. The buffer is the caller's: the writer allocates nothing.
pub fn write(file: &BoardFile, buf: &mut [u8]) -> Result<usize, WriteError>
    ensures answer { Writes file.now buf.old buf.new result }
    ensures reads_back { IfOk result (λ n. ReadsAs (take n buf.new) file.now) }
{
    let len = measure(file)?;
    if buf.len() < len {
        return Err(WriteError::TooSmall);
    }
    put_settings(file.settings, buf);
    put_events(file.events.as_slice(), &mut buf[FIRST_SECTION..]);
    Ok(len)
}
