// Reading and writing a board file undo each other. Both laws follow from the contracts of the reader and the writer alone.
#![tactic(auto)]

ghost use Rattle.boardcopy.specs.Copies.{Rewrites, Rereads, copy_error_words};
ghost use Rattle.boardcopy.specs.declared.CopyError.TheVariants.{Unread, Unwritten};
ghost use Rattle.std.specs.Prelude.{◌≡◌, Some};

use boardfile::fault::{ReadError, WriteError};
use boardfile::parts::BoardFile;
use boardfile::reader::read;
use boardfile::writer::write;
use std::alloc::Global;
use std::error::Error;
use std::fmt;

// Why a board file was not copied.
#[derive(Clone, Copy, PartialEq, Eq, Debug)]
pub enum CopyError {
    Unread(ReadError),
    Unwritten(WriteError),
}

impl fmt::Display for CopyError {
    ghost output = { λ error. Some (copy_error_words error) };

    fn fmt<W: fmt::Write>(&self, f: &mut fmt::Formatter<W>) -> fmt::Result {
        match self {
            CopyError::Unread(error) => write!(f, "{error}"),
            CopyError::Unwritten(error) => write!(f, "{error}"),
        }
    }
}

impl Error for CopyError {}

impl From<ReadError> for CopyError {
    ghost from_gives = { λ e r. r ≡ Unread e };

    fn from(error: ReadError) -> CopyError {
        CopyError::Unread(error)
    }
}

impl From<WriteError> for CopyError {
    ghost from_gives = { λ e r. r ≡ Unwritten e };

    fn from(error: WriteError) -> CopyError {
        CopyError::Unwritten(error)
    }
}

// Reads the bytes and writes what was read: the same bytes, at the start of the buffer.
pub fn rewrite(heap: Global, bytes: &[u8], buf: &mut [u8]) -> Result<usize, CopyError>
    ensures { Rewrites bytes.now buf.old buf.new result }
{
    let file = read(heap, bytes)?;
    let len = write(&file, buf)?;
    Ok(len)
}

// Writes the file into the buffer and reads what was written: the same parts.
pub fn reread(heap: Global, file: &BoardFile, buf: &mut [u8]) -> Result<BoardFile, CopyError>
    ensures { Rereads file.now buf.old buf.new result }
{
    let len = write(file, buf)?;
    let again = read(heap, &buf[0..len])?;
    Ok(again)
}
