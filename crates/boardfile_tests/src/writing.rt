// What the writer refuses, and what it leaves in the buffer.
use boardfile::fault::*;
use boardfile::parts::*;
use boardfile::writer::write;
use calls::call::Call;
use std::alloc::{AllocError, Global};
use std::test::Fail;

fn settings(clients: u8, places: u8, tasks: u8) -> Settings {
    let line = LineKind::RoundRobin;
    let policy = PolicyKind::Deferred { delay: 258 };
    Settings {
        clients,
        places,
        tasks,
        line,
        policy,
        device: DeviceKind::Registers,
    }
}

// A file of good settings and so many dones with this mark.
fn dones(heap: Global, mark: u8, count: usize) -> Result<BoardFile, AllocError> {
    let mut events = Vec::new(heap);
    for _ in 0..count {
        events.push(Call::Done { mark, byte: 7 })?;
    }
    Ok(BoardFile {
        settings: settings(4, 4, 5),
        events,
    })
}

fn faulty(kind: FaultKind, place: (u8, u16)) -> Result<usize, WriteError> {
    Err(WriteError::Faulty(Fault { kind, place }))
}

#[test]
fn writes_high_byte_first(rt: HostRuntime) -> Result<(), Fail> {
    let file = dones(rt.alloc(), 1, 1)?;
    let mut buf = [9; 19];
    assert_eq!(rt; write(&file, &mut buf), Ok(18));
    assert!(rt; buf[0..10] == [0, 1, 4, 4, 5, 1, 1, 1, 2, 0]);
    assert!(rt; buf[10..19] == [0, 1, 6, 1, 0, 0, 0, 7, 9]);
    Ok(())
}

#[test]
fn refuses_a_small_buffer(rt: HostRuntime) -> Result<(), Fail> {
    let file = dones(rt.alloc(), 1, 1)?;
    let mut buf = [9; 17];
    assert_eq!(rt; write(&file, &mut buf), Err(WriteError::TooSmall));
    assert!(rt; WriteError::TooSmall.number() == 25);
    assert_eq!(rt; buf, [9; 17]);
    Ok(())
}

#[test]
fn refuses_its_parts(rt: HostRuntime) -> Result<(), Fail> {
    let heap = rt.alloc();
    let mut none = [];
    let mut file = dones(heap, 2, 4097)?;
    // Each fault comes before the next, and all before a buffer that is too small.
    file.settings = settings(33, 0, 0);
    assert_eq!(rt; write(&file, &mut none), faulty(FaultKind::Clients, (1, 0)));
    file.settings = settings(4, 3, 0);
    assert_eq!(rt; write(&file, &mut none), faulty(FaultKind::Places, (1, 0)));
    file.settings = settings(4, 4, 0);
    assert_eq!(rt; write(&file, &mut none), faulty(FaultKind::Tasks, (1, 0)));
    file.settings = settings(4, 4, 1);
    assert_eq!(rt; write(&file, &mut none), faulty(FaultKind::Count, (2, 0)));
    let _ = file.events.pop();
    assert_eq!(rt; write(&file, &mut none), faulty(FaultKind::Unfit, (2, 0)));
    Ok(())
}
