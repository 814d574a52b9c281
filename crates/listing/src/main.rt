// Lists the board file on standard input.
#![tactic(auto)]

use std::alloc::Global;
use std::io::{self, Read, Write};
use std::process::ExitCode;
use words::listing::list;

// One byte more than the longest board file has: what comes after it changes no listing.
const LIMIT: u64 = 24_589;

// The text goes out in one write.
fn run(heap: Global, input: impl Read + Drop, output: &mut impl Write) -> anyhow::Result<()> {
    let mut bytes = Vec::new(heap);
    let _ = input.take(LIMIT).read_to_end(&mut bytes)?;
    let text = list(heap, bytes.as_slice())?;
    output.write_all(text.as_bytes())?;
    Ok(())
}

fn main(rt: HostRuntime) -> ExitCode {
    // Not `rt.stdout()`, which as good as never gives up a write that is interrupted again and again.
    match run(rt.alloc(), rt.stdin(), &mut io::writer(&rt)) {
        Ok(()) => ExitCode::SUCCESS,
        Err(error) => {
            let _ = eprintln!(rt; "listing: {error}");
            ExitCode::FAILURE
        }
    }
}
