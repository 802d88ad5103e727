//! What the programs share: a text is read, and a report is printed.
ghost use Rattle.std.specs.Prelude.{◌≡◌, ◌+◌, cond, take, vec_items, IfOk, IfSome};
ghost use Rattle.std.specs.Process.{exit_status};
ghost use Rattle.text.specs.Readings.{text_bound};

use crate::report::Report;
use std::alloc::Global;
use std::io::{self, Read};
use std::process::ExitCode;
use text::TEXT_BOUND;

/// One byte more than the longest text shows that a text is too long.
const READ_BOUND: u64 = TEXT_BOUND as u64 + 1;

/// The text that a reader gives, up to one byte past the longest.
pub fn read_text<R: Read + Drop>(heap: Global, reader: R) -> io::Result<Vec<u8>>
    ensures { IfOk result (λ text. IfSome (R.Read.remaining reader) (λ bytes. vec_items text ≡ take (text_bound + 1) bytes)) }
{
    let mut text = Vec::new(heap);
    reader.take(READ_BOUND).read_to_end(&mut text)?;
    Ok(text)
}

impl Report {
    /// Prints the lines in one go, and answers the status: a failure after a refusal.
    pub fn print<R: Print>(&self, rt: &R) -> anyhow::Result<ExitCode>
        ensures { IfOk result (λ code. exit_status code ≡ cond self.now.is_refusal 1 0) }
    {
        rt.write_all(self.lines.as_bytes())?;
        Ok(if self.is_refusal {
            ExitCode::FAILURE
        } else {
            ExitCode::SUCCESS
        })
    }
}
