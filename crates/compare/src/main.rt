//! Compares the two machines of the text on standard input, and prints the report. Ends with status 1 where the text is
//! refused.
#![tactic(auto)]

use report::{compare, read_text};
use std::process::ExitCode;

fn main(rt: HostRuntime) -> anyhow::Result<ExitCode> {
    let text = read_text(rt.alloc(), rt.reader())?;
    compare(rt.alloc(), &text)?.print(&rt)
}
