// Parts, faults and errors in words.
use boardcopy::CopyError;
use boardfile::fault::*;
use boardfile::parts::*;
use calls::answer::TransferFailed;
use calls::call::{Call, Order};
use calls::refusal::Refusal;
use std::alloc::Global;
use std::fmt::Display;
use std::process::Abort;
use std::test::Fail;

// There is memory for the words, and they are these.
fn says(rt: &impl Abort, heap: Global, it: &impl Display, words: &str) -> Result<(), Fail> {
    let text = it.to_string(heap)?;
    assert!(rt; text.as_str() == words);
    Ok(())
}

#[test]
fn parts_in_words(rt: HostRuntime) -> Result<(), Fail> {
    let heap = rt.alloc();
    let order = Order {
        kind: 1,
        address: 65_535,
        value: 9,
    };
    says(
        &rt,
        heap,
        &Call::Begin { client: 2, order },
        "begin client 2 kind 1 address 65535 value 9",
    )?;
    let policy = PolicyKind::Deferred { delay: 258 };
    let settings = Settings {
        clients: 4,
        places: 4,
        tasks: 5,
        line: LineKind::RoundRobin,
        policy,
        device: DeviceKind::Registers,
    };
    says(
        &rt,
        heap,
        &settings,
        "clients 4 places 4 tasks 5 line round-robin policy deferred 258 device registers",
    )
}

#[test]
fn errors_in_words(rt: HostRuntime) -> Result<(), Fail> {
    let heap = rt.alloc();
    let fault = Fault::new(FaultKind::Unfit, Section::Events, 7);
    says(&rt, heap, &fault, "file 23 2 7")?;
    // Whoever holds a fault may name any section.
    let place = (9, 3);
    let kind = FaultKind::Unfit;
    says(&rt, heap, &Fault { kind, place }, "file 23 9 3")?;
    says(&rt, heap, &ReadError::from(fault), "file 23 2 7")?;
    says(&rt, heap, &ReadError::NoMemory, "out of memory")?;
    says(&rt, heap, &WriteError::from(fault), "file 23 2 7")?;
    says(&rt, heap, &WriteError::TooSmall, "the buffer is too small")?;
    says(
        &rt,
        heap,
        &CopyError::from(ReadError::NoMemory),
        "out of memory",
    )?;
    says(
        &rt,
        heap,
        &CopyError::from(WriteError::TooSmall),
        "the buffer is too small",
    )?;
    says(&rt, heap, &NoLayout, "the bytes are no layout")?;
    says(&rt, heap, &TransferFailed { byte: 9 }, "failed 9")?;
    says(&rt, heap, &Refusal::TransferNotQuiet, "no 6")?;
    says(&rt, heap, &Refusal::OrderRejected { verdict: 3 }, "no 7 3")
}
