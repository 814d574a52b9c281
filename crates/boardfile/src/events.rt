// The events section.
ghost use Rattle.std.specs.Prelude.{◌≡◌, ◌≤◌, length, IfOk, IfErr};
ghost use Rattle.boardfile.specs.Layout.{events_bytes};
ghost use Rattle.boardfile.specs.Fits.{EventsFit};
ghost use Rattle.boardfile.specs.Faults.{EventsRefused};

use crate::count::take_count;
use crate::event::{self, take_event};
use crate::fault::{Fault, FaultKind, ReadError, Section};
use crate::parts::MOST_EVENTS;
use calls::call::Call;
use std::alloc::Global;

// The events of a file, whose second section the bytes are.
pub(crate) fn read_events(heap: Global, bytes: &[u8]) -> Result<Vec<Call>, ReadError>
    ensures layout { IfOk result (λ v. bytes.now ≡ events_bytes v.items) }
    ensures allowed { IfOk result (λ v. length v.items ≤ 4096) }
    ensures fit { IfOk result (λ v. EventsFit v.items) }
    ensures refused { IfErr result (EventsRefused bytes.now) }
{
    let (count, records) = take_count(Section::Events, bytes)?;
    if count > MOST_EVENTS {
        return Err(Fault::new(FaultKind::Count, Section::Events, 0).into());
    }
    let whole = records.len() / event::LEN;
    if whole < count as usize {
        return Err(Fault::new(FaultKind::Missing, Section::Events, whole as u16).into());
    }
    let mut events = Vec::new(heap);
    let mut rest = records;
    // By number, which a fault tells; each record is taken off the rest by a slice pattern.
    for index in 0..count {
        let Ok((event, more)) = take_event(rest) else {
            return Err(Fault::new(FaultKind::Unfit, Section::Events, index).into());
        };
        events.push(event)?;
        rest = more;
    }
    if !rest.is_empty() {
        return Err(Fault::new(FaultKind::Trailing, Section::Events, count).into());
    }
    Ok(events)
}
