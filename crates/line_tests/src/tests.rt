// The list and the lines at work. Refusals are told by their numbers, since these are what is tested.
use crate::one_place::OnePlace;
use crate::swap::swap;
use calls::refusal::Refusal;
use line::first_come::FirstCome;
use line::line::Line;
use line::round_robin::RoundRobin;
use pending::client::Client;
use pending::key::{Key, NONE};
use pending::list::PendingList;
use pending::task::Task;
use std::process::Abort;
use std::test::Fail;

// Adds the task of that number, if there is one.
fn add(list: &mut PendingList<Task>, task: u8) -> Option<Result<(), u8>> {
    let task = Task::from_number(task)?;
    Some(list.add(&task).map_err(Refusal::number))
}

// Every key of the list: added in falling order, refused once more, and taken in that order.
#[test]
fn a_list_of_all_keys(rt: HostRuntime) {
    let mut list: PendingList<Task> = PendingList::new();
    for task in (0..255).rev() {
        assert_eq!(rt; add(&mut list, task), Some(Ok(())));
    }
    assert_eq!(rt; list.len(), 255);
    assert_eq!(rt; add(&mut list, 254), Some(Err(14)));
    assert_eq!(rt; add(&mut list, 0), Some(Err(14)));
    assert_eq!(rt; add(&mut list, NONE), None);
    for task in (0..255).rev() {
        assert_eq!(rt; list.take().map(|task| task.number()), Some(task));
    }
    assert!(rt; list.is_empty());
    assert!(rt; list.take().is_none());
}

// A client and a task of one number read as what they are.
#[test]
fn keys_by_their_kind(rt: HostRuntime) -> Result<(), Fail> {
    let heap = rt.alloc();
    let client = format!(in heap; "{:?}", Client::from_number(3))?;
    assert!(rt; client.as_str() == "Some(Client { number: 3 })");
    let task = format!(in heap; "{:?}", Task::from_number(3))?;
    assert!(rt; task.as_str() == "Some(Task { number: 3 })");
    Ok(())
}

fn put<L: Line>(line: &mut L, client: u8) -> Result<(), u8> {
    line.put(client).map_err(Refusal::number)
}

// The number of whom the line gives.
fn take<L: Line>(line: &mut L) -> Option<u8> {
    line.take().map(|client| client.number())
}

// The refusals of a put, in their order, on a line with two places.
#[test]
fn first_come_refuses(rt: HostRuntime) {
    let mut line = FirstCome::new();
    for (clients, places, answer) in [
        (0, 1, Err(16)),
        (33, 1, Err(16)),
        (3, 4, Err(17)),
        (3, 0, Err(17)),
        (3, 2, Ok(())),
    ] {
        assert_eq!(rt; line.make(clients, places).map_err(Refusal::number), answer);
    }
    for (client, answer) in [
        (2, Ok(())),
        (3, Err(1)),
        (255, Err(1)),
        (2, Err(2)),
        (0, Ok(())),
        (2, Err(2)),
        (1, Err(3)),
    ] {
        assert_eq!(rt; put(&mut line, client), answer);
    }
    for client in [Some(2), Some(0), None] {
        assert_eq!(rt; take(&mut line), client);
    }
}

// The example of the rules.
#[test]
fn round_robin_takes_turns(rt: HostRuntime) -> Result<(), Fail> {
    let mut line = RoundRobin::new(4, 4)?;
    line.put(2)?;
    line.put(0)?;
    for client in [Some(0), Some(2), None] {
        assert_eq!(rt; take(&mut line), client);
    }
    line.put(1)?;
    line.put(3)?;
    for client in [Some(3), Some(1), None] {
        assert_eq!(rt; take(&mut line), client);
    }
    Ok(())
}

// All 32 clients wait, and each is taken in its turn; then the turn goes round from the last.
#[test]
fn round_robin_of_all_clients(rt: HostRuntime) -> Result<(), Fail> {
    let mut line = RoundRobin::new(32, 32)?;
    for client in 0..32 {
        assert!(rt; !line.is_full());
        assert_eq!(rt; put(&mut line, client), Ok(()));
    }
    assert!(rt; line.is_full());
    for (client, refusal) in [(32, 1), (255, 1), (31, 2)] {
        assert_eq!(rt; put(&mut line, client), Err(refusal));
    }
    for client in 0..32 {
        assert_eq!(rt; take(&mut line), Some(client));
    }
    assert!(rt; line.is_empty());
    Ok(())
}

// Whom the line gives for each client that comes.
fn swaps<L: Line>(rt: &impl Abort, line: &mut L, taken: &[(u8, u8)]) -> Result<(), Fail> {
    for (client, next) in taken {
        assert_eq!(rt;
            swap(line, *client)?.map(|client| client.number()),
            Some(*next)
        );
    }
    Ok(())
}

// The same clients come to three lines: 3 waits at first, where there is a place for one more beside it.
#[test]
fn lines_differ(rt: HostRuntime) -> Result<(), Fail> {
    let mut first_come = FirstCome::new();
    first_come.make(4, 2)?;
    first_come.put(3)?;
    swaps(&rt, &mut first_come, &[(0, 3), (1, 0), (0, 1)])?;
    let mut in_turn = RoundRobin::new(4, 4)?;
    in_turn.put(3)?;
    swaps(&rt, &mut in_turn, &[(0, 0), (1, 1), (0, 3)])?;
    let mut one_place = OnePlace::new(4);
    swaps(&rt, &mut one_place, &[(0, 0), (1, 1), (0, 0)])
}
