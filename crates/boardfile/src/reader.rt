// The reader of a board file.
ghost use Rattle.boardfile.specs.Reads.{Reading};

use crate::events::read_events;
use crate::fault::ReadError;
use crate::parts::BoardFile;
use crate::settings::read_settings;
use std::alloc::Global;

// The parts of the board file that the bytes lay out, or the first fault of the bytes.
pub fn read(heap: Global, bytes: &[u8]) -> Result<BoardFile, ReadError>
    ensures { Reading bytes.now result }
{
    let (settings, rest) = read_settings(bytes)?;
    let events = read_events(heap, rest)?;
    Ok(BoardFile { settings, events })
}
