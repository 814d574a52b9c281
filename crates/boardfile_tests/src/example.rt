// The worked example of docs/report.md, read and written back.
use boardcopy::rewrite;
use boardfile::parts::*;
use boardfile::reader::read;
use calls::call::*;
use std::alloc::{AllocError, Global};
use std::test::Fail;

const EVENTS: [[u8; 6]; 22] = [
    [0, 0, 0, 0, 0, 0],
    [0, 1, 0, 0, 0, 0],
    [5, 0, 0, 0, 0, 0],
    [9, 0, 0, 0, 0, 0],
    [3, 0, 0, 0, 5, 0],
    [2, 0, 0, 0, 0, 0],
    [6, 0, 0, 0, 0, 9],
    [4, 0, 0, 0, 0, 0],
    [0, 0, 0, 0, 0, 0],
    [0, 2, 0, 0, 0, 0],
    [2, 0, 0, 0, 0, 0],
    [9, 0, 0, 0, 0, 0],
    [2, 1, 0, 0, 0, 0],
    [7, 0, 0, 0, 0, 0],
    [9, 0, 0, 0, 0, 0],
    [2, 0, 0, 0, 0, 0],
    [1, 2, 0, 0, 0, 0],
    [0, 2, 0, 0, 0, 0],
    [5, 0, 0, 0, 0, 0],
    [5, 0, 0, 0, 0, 0],
    [9, 0, 0, 0, 0, 0],
    [2, 1, 0, 0, 0, 0],
];

fn example(heap: Global) -> Result<Vec<u8>, AllocError> {
    let mut bytes = Vec::from_slice(heap, &[0, 1, 3, 2, 2, 0, 0, 0, 0, 1, 0, 22])?;
    for event in &EVENTS {
        bytes.extend_from_slice(event)?;
    }
    Ok(bytes)
}

const SETTINGS: Settings = Settings {
    clients: 3,
    places: 2,
    tasks: 2,
    line: LineKind::FirstCome,
    policy: PolicyKind::Immediate,
    device: DeviceKind::Converter,
};

const CALLS: [Call; 22] = [
    Call::Request { client: 0 },
    Call::Request { client: 1 },
    Call::Ready,
    Call::Run,
    Call::Begin {
        client: 0,
        order: Order {
            kind: 0,
            address: 5,
            value: 0,
        },
    },
    Call::Release { client: 0 },
    Call::Done { mark: 0, byte: 9 },
    Call::Collect { client: 0 },
    Call::Request { client: 0 },
    Call::Request { client: 2 },
    Call::Release { client: 0 },
    Call::Run,
    Call::Release { client: 1 },
    Call::Tick,
    Call::Run,
    Call::Release { client: 0 },
    Call::Immediate { client: 2 },
    Call::Request { client: 2 },
    Call::Ready,
    Call::Ready,
    Call::Run,
    Call::Release { client: 1 },
];

#[test]
fn reads_its_parts(rt: HostRuntime) -> Result<(), Fail> {
    let heap = rt.alloc();
    let file = read(heap, example(heap)?.as_slice())?;
    assert!(rt; file.settings == SETTINGS);
    assert!(rt; file.events.as_slice() == &CALLS[0..22]);
    Ok(())
}

#[test]
fn writes_back(rt: HostRuntime) -> Result<(), Fail> {
    let heap = rt.alloc();
    let bytes = example(heap)?;
    let mut buf = [255; 146];
    assert_eq!(rt; rewrite(heap, bytes.as_slice(), &mut buf), Ok(144));
    assert!(rt; &buf[0..144] == bytes.as_slice());
    assert_eq!(rt; buf[144], 255);
    assert_eq!(rt; buf[145], 255);
    Ok(())
}
