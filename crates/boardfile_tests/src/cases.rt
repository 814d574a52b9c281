// Damaged files, each with its fault and place.
use boardfile::fault::ReadError;
use boardfile::reader::read;
use std::process::Abort;
use std::test::Fail;

// The bytes are refused by this number, at this section and record: told by numbers, since these are what is tested.
pub(crate) fn refused(
    rt: &(impl Abort + AllocGlobal),
    bytes: &[u8],
    told: (u8, u8, u16),
) -> Result<(), Fail> {
    match read(rt.alloc(), bytes) {
        Ok(_) => Err(Fail::new("a faulty file was read")),
        Err(ReadError::Faulty(fault)) => {
            let (section, record) = fault.place;
            assert_eq!(rt; (fault.kind.number(), section, record), told);
            Ok(())
        }
        Err(ReadError::NoMemory) => Err(Fail::new("no memory")),
    }
}

// The same of a settings section with this record.
fn settings(rt: &(impl Abort + AllocGlobal), record: [u8; 8], number: u8) -> Result<(), Fail> {
    let mut bytes = Vec::from_slice(rt.alloc(), &[0, 1])?;
    bytes.extend_from_slice(&record)?;
    bytes.extend_from_slice(&[0, 0])?;
    refused(rt, bytes.as_slice(), (number, 1, 0))
}

// The same of an events section, behind good settings.
fn events(
    rt: &(impl Abort + AllocGlobal),
    section: &[u8],
    number: u8,
    record: u16,
) -> Result<(), Fail> {
    let mut bytes = Vec::from_slice(rt.alloc(), &[0, 1, 3, 2, 2, 0, 0, 0, 0, 1])?;
    bytes.extend_from_slice(section)?;
    refused(rt, bytes.as_slice(), (number, 2, record))
}

#[test]
fn settings_count(rt: HostRuntime) -> Result<(), Fail> {
    refused(&rt, &[], (21, 1, 0))?;
    refused(&rt, &[0], (21, 1, 0))?;
    refused(&rt, &[0, 0], (22, 1, 0))?;
    refused(&rt, &[0, 2], (22, 1, 0))?;
    refused(&rt, &[1, 0, 3, 2, 2, 0, 0, 0, 0, 1, 0, 0], (22, 1, 0))?;
    refused(&rt, &[0, 1], (21, 1, 0))?;
    // A record that is not whole comes before one that does not fit.
    refused(&rt, &[0, 1, 3, 2, 2, 9, 9, 0, 0], (21, 1, 0))?;
    // The settings are judged before any of the events.
    refused(&rt, &[0, 1, 3, 2, 0, 0, 0, 0, 0, 1], (18, 1, 0))
}

// Settings records and their faults. What does not fit comes before what is out of range, and that in its order.
const SETTINGS: [([u8; 8], u8); 13] = [
    ([3, 2, 2, 2, 0, 0, 0, 1], 23),
    ([3, 2, 2, 0, 2, 0, 0, 1], 23),
    ([3, 2, 2, 0, 0, 1, 0, 1], 23),
    ([3, 2, 2, 0, 0, 0, 1, 1], 23),
    ([3, 2, 2, 0, 0, 0, 0, 2], 23),
    ([0, 0, 0, 0, 0, 0, 0, 2], 23),
    ([0, 0, 0, 0, 0, 0, 0, 1], 16),
    ([33, 0, 0, 0, 0, 0, 0, 1], 16),
    ([3, 0, 0, 0, 0, 0, 0, 1], 17),
    ([3, 4, 0, 0, 0, 0, 0, 1], 17),
    ([3, 2, 0, 1, 0, 0, 0, 1], 17),
    ([3, 2, 0, 0, 0, 0, 0, 1], 18),
    ([32, 32, 0, 1, 1, 255, 255, 0], 18),
];

#[test]
fn settings_records(rt: HostRuntime) -> Result<(), Fail> {
    for (record, number) in &SETTINGS {
        settings(&rt, *record, *number)?;
    }
    Ok(())
}

#[test]
fn events_count(rt: HostRuntime) -> Result<(), Fail> {
    events(&rt, &[], 21, 0)?;
    events(&rt, &[0], 21, 0)?;
    events(&rt, &[16, 1], 22, 0)?;
    events(&rt, &[255, 255], 22, 0)?;
    events(&rt, &[16, 0], 21, 0)?;
    events(&rt, &[0, 2, 7, 0, 0, 0, 0, 0, 7, 0, 0], 21, 1)?;
    // A record that is not whole comes before an earlier one that does not fit.
    events(&rt, &[0, 2, 99, 0, 0, 0, 0, 0, 7, 0, 0], 21, 1)?;
    events(&rt, &[0, 0, 0], 24, 0)?;
    events(&rt, &[0, 1, 7, 0, 0, 0, 0, 0, 7], 24, 1)?;
    // What does not fit comes before bytes that follow.
    events(&rt, &[0, 2, 7, 0, 0, 0, 0, 0, 7, 1, 0, 0, 0, 0, 7], 23, 1)
}

// Events sections of one record that does not fit.
const UNFIT: [[u8; 8]; 12] = [
    [0, 1, 10, 0, 0, 0, 0, 0],
    [0, 1, 255, 0, 0, 0, 0, 0],
    [0, 1, 0, 0, 1, 0, 0, 0],
    [0, 1, 1, 0, 0, 1, 0, 0],
    [0, 1, 2, 0, 0, 0, 1, 0],
    [0, 1, 4, 0, 0, 0, 0, 1],
    [0, 1, 5, 1, 0, 0, 0, 0],
    [0, 1, 6, 2, 0, 0, 0, 0],
    [0, 1, 6, 0, 1, 0, 0, 9],
    [0, 1, 7, 1, 0, 0, 0, 0],
    [0, 1, 8, 1, 0, 0, 0, 1],
    [0, 1, 9, 1, 0, 0, 0, 0],
];

#[test]
fn events_records(rt: HostRuntime) -> Result<(), Fail> {
    for section in &UNFIT {
        events(&rt, section, 23, 0)?;
    }
    Ok(())
}
