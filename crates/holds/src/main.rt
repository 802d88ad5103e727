//! Prints at which states of the machine of the text on standard input its formula holds. Ends with status 1 where the text is
//! refused.
#![tactic(auto)]

use report::{holds, read_text};
use std::process::ExitCode;

fn main(rt: HostRuntime) -> anyhow::Result<ExitCode> {
    let text = read_text(rt.alloc(), rt.reader())?;
    holds(rt.alloc(), &text)?.print(&rt)
}
