// The listing of a board file.
ghost use Rattle.std.specs.Prelude.{◌≡◌, ℕ, List, ◌++◌, take, IfOk, string_bytes, OnOk};
ghost use Rattle.words.specs.Lists.{Lists, Tells};
ghost use Rattle.words.specs.Words.{event_line, event_lines, listing};

use boardfile::fault::ReadError;
use boardfile::parts::BoardFile;
use boardfile::reader::read;
use calls::call::Call;
use std::alloc::{AllocError, Global};

// Adds the line of an event.
fn add_event(text: &mut String, index: usize, event: Call) -> Result<(), AllocError>
    ensures { OnOk result (string_bytes text.new ≡ string_bytes text.old ++ event_line index event) }
{
    writeln!(text, "{index} {event}")
}

fn add_events(text: &mut String, events: &[Call]) -> Result<(), AllocError>
    ensures { OnOk result (string_bytes text.new ≡ string_bytes text.old ++ event_lines 0 events.now) }
{
    for (index, event) in events.iter().enumerate() {
        add_event(text, index, *event)?;
    }
    Ok(())
}

// A board file in words: a line for its settings, and one for each event.
pub fn list_parts(heap: Global, file: &BoardFile) -> Result<String, AllocError>
    ensures { IfOk result (λ text. string_bytes text ≡ listing file.now.settings file.now.events.items) }
{
    let mut text = format!(in heap; "{}\n", file.settings)?;
    add_events(&mut text, file.events.as_slice())?;
    Ok(text)
}

// The line of a faulty file.
fn list_error(heap: Global, error: ReadError) -> Result<String, AllocError>
    ensures { IfOk result (λ text. Tells error (string_bytes text)) }
{
    match error {
        ReadError::Faulty(fault) => format!(in heap; "{fault}\n"),
        ReadError::NoMemory => Err(AllocError),
    }
}

// The listing of the bytes, or their first fault. The first 24,589 bytes of an input list as the whole of it does.
pub fn list(heap: Global, bytes: &[u8]) -> Result<String, AllocError>
    ensures answer { IfOk result (λ text. Lists bytes.now (string_bytes text)) }
    ensures whole { (input : List ℕ) → bytes.now ≡ take 24589 input → IfOk result (λ text. Lists input (string_bytes text)) }
{
    match read(heap, bytes) {
        Ok(file) => list_parts(heap, &file),
        Err(error) => list_error(heap, error),
    }
}
