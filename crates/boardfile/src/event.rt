// The record of one event. A call is another crate's type, so its codec is functions here and no `From`.
ghost use Rattle.std.specs.Prelude.{◌≡◌, ◌++◌, ◌≢◌, IfOk, OnErr};
ghost use Rattle.calls.specs.declared.call.Call.{Call};
ghost use Rattle.boardfile.specs.Layout.{event_bytes};
ghost use Rattle.boardfile.specs.Fits.{EventFits};
ghost use Rattle.boardfile.specs.Faults.{NoEvent};

use crate::parts::NoLayout;
use calls::call::{Call, Order};

// How many bytes a record has.
pub(crate) const LEN: usize = 6;

// The event that a record's bytes lay out, if it fits.
fn decode(bytes: [u8; LEN]) -> Result<Call, NoLayout>
    ensures fits { IfOk result EventFits }
    ensures layout { IfOk result (λ e. bytes ≡ event_bytes e) }
    ensures none { OnErr result ((e : Call) → EventFits e → bytes ≢ event_bytes e) }
{
    match bytes {
        [0, client, 0, 0, 0, 0] => Ok(Call::Request { client }),
        [1, client, 0, 0, 0, 0] => Ok(Call::Immediate { client }),
        [2, client, 0, 0, 0, 0] => Ok(Call::Release { client }),
        [3, client, kind, high, low, value] => {
            let address = u16::from_be_bytes([high, low]);
            Ok(Call::Begin {
                client,
                order: Order {
                    kind,
                    address,
                    value,
                },
            })
        }
        [4, client, 0, 0, 0, 0] => Ok(Call::Collect { client }),
        [5, 0, 0, 0, 0, 0] => Ok(Call::Ready),
        [6, mark, 0, 0, 0, byte] if mark <= 1 => Ok(Call::Done { mark, byte }),
        [7, 0, 0, 0, 0, 0] => Ok(Call::Tick),
        [8, task, 0, 0, 0, 0] => Ok(Call::Post { task }),
        [9, 0, 0, 0, 0, 0] => Ok(Call::Run),
        _ => Err(NoLayout),
    }
}

// The event whose record the bytes begin with, and the bytes after it.
pub(crate) fn take_event(bytes: &[u8]) -> Result<(Call, &[u8]), NoLayout>
    ensures fits { IfOk result (λ p. EventFits p.0) }
    ensures layout { IfOk result (λ p. bytes.now ≡ event_bytes p.0 ++ p.1.now) }
    ensures none { OnErr result (NoEvent bytes.now) }
{
    let [kind, who, order_kind, high, low, value, rest @ ..] = bytes else {
        return Err(NoLayout);
    };
    let event = decode([*kind, *who, *order_kind, *high, *low, *value])?;
    Ok((event, rest))
}

pub(crate) fn encode(event: Call) -> [u8; LEN]
    ensures { result ≡ event_bytes event }
{
    match event {
        Call::Request { client } => [0, client, 0, 0, 0, 0],
        Call::Immediate { client } => [1, client, 0, 0, 0, 0],
        Call::Release { client } => [2, client, 0, 0, 0, 0],
        Call::Begin { client, order } => {
            let [high, low] = order.address.to_be_bytes();
            [3, client, order.kind, high, low, order.value]
        }
        Call::Collect { client } => [4, client, 0, 0, 0, 0],
        Call::Ready => [5, 0, 0, 0, 0, 0],
        Call::Done { mark, byte } => [6, mark, 0, 0, 0, byte],
        Call::Tick => [7, 0, 0, 0, 0, 0],
        Call::Post { task } => [8, task, 0, 0, 0, 0],
        Call::Run => [9, 0, 0, 0, 0, 0],
    }
}
