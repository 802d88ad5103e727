//! Sets the sheet against the second comparer on many small machines, and prints how much was compared, or the first
//! difference. Ends with status 1 where there is one.
#![tactic(auto)]

mod choices;
mod counts;
mod cross;
mod crossing;
mod fault;
mod formulas;
mod page;
mod report;
mod sample;
#[cfg(test)]
mod tests;

use report::cross_check;
use std::process::ExitCode;

fn run<R: Print + AllocGlobal>(rt: &R) -> anyhow::Result<ExitCode> {
    let report = cross_check(rt.alloc())?;
    rt.print(report.lines)?;
    Ok(if report.is_difference {
        ExitCode::FAILURE
    } else {
        ExitCode::SUCCESS
    })
}

fn main(rt: HostRuntime) -> anyhow::Result<ExitCode> {
    run(&rt)
}
