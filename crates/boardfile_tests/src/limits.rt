// The longest file, and what lies past it.
use crate::cases::refused;
use boardfile::reader::read;
use std::alloc::{AllocError, Global};
use std::test::Fail;

// A file with this count of events, and so many ticks.
fn ticks(heap: Global, count: [u8; 2], ticks: usize) -> Result<Vec<u8>, AllocError> {
    let mut bytes = Vec::from_slice(heap, &[0, 1, 32, 32, 255, 1, 1, 255, 255, 0])?;
    bytes.extend_from_slice(&count)?;
    for _ in 0..ticks {
        bytes.extend_from_slice(&[7, 0, 0, 0, 0, 0])?;
    }
    Ok(bytes)
}

#[test]
fn longest(rt: HostRuntime) -> Result<(), Fail> {
    let mut bytes = ticks(rt.alloc(), [16, 0], 4096)?;
    assert_eq!(rt; bytes.len(), 24_588);
    let file = read(rt.alloc(), bytes.as_slice())?;
    assert_eq!(rt; file.events.len(), 4096);
    bytes.push(0)?;
    refused(&rt, bytes.as_slice(), (24, 2, 4096))
}

#[test]
fn one_event_too_many(rt: HostRuntime) -> Result<(), Fail> {
    let bytes = ticks(rt.alloc(), [16, 1], 4097)?;
    refused(&rt, bytes.as_slice(), (22, 2, 0))
}

#[test]
fn last_event_missing(rt: HostRuntime) -> Result<(), Fail> {
    let bytes = ticks(rt.alloc(), [16, 0], 4095)?;
    refused(&rt, bytes.as_slice(), (21, 2, 4095))
}
