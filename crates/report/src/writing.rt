//! Reports written line by line.
ghost use Rattle.std.specs.Prelude.{◌≡◌, ◌++◌, ◌<◌, OnOk, IfOk, string_bytes};
ghost use Rattle.model.specs.Machines.{states};
ghost use Rattle.sheet.specs.Verdicts.{setting};
ghost use Rattle.report.specs.Settled.{IsSettled, page_of};
ghost use Rattle.report.specs.Reports.{class_lines, strike_lines, report_lines};

use crate::lines::{ClassLine, ComparedLine, StartLine, StrikeLine};
use crate::settled::Settled;
use model::{Machine, Order};
use sheet::Setting;
use std::alloc::{AllocError, Global};

/// A line for each state's class.
fn write_classes<M: Machine, O: Order<Label = M::Label>>(
    on: &Setting<M, O>,
    settled: &Settled,
    text: &mut String,
) -> Result<(), AllocError>
    requires { IsSettled (setting (O.Order.relation on.now.order.now) (M.Machine.meaning on.now.machine.now)) (page_of settled.now) }
    ensures { OnOk result (string_bytes text.new ≡ string_bytes text.old ++ class_lines (setting (O.Order.relation on.now.order.now) (M.Machine.meaning on.now.machine.now)) (states (M.Machine.meaning on.now.machine.now))) }
{
    for state in 0..on.machine.count() {
        let class = settled.class(on, state);
        let line = ClassLine { state, class };
        write!(text, "{line}")?;
    }
    Ok(())
}

/// A line for each strike.
fn write_strikes<M: Machine, O: Order<Label = M::Label>>(
    on: &Setting<M, O>,
    settled: &Settled,
    text: &mut String,
) -> Result<(), AllocError>
    requires { IsSettled (setting (O.Order.relation on.now.order.now) (M.Machine.meaning on.now.machine.now)) (page_of settled.now) }
    ensures { OnOk result (string_bytes text.new ≡ string_bytes text.old ++ strike_lines (setting (O.Order.relation on.now.order.now) (M.Machine.meaning on.now.machine.now))) }
{
    for strike in settled.strikes(on) {
        let line = StrikeLine { strike: *strike };
        write!(text, "{line}")?;
    }
    Ok(())
}

/// The report on two machines side by side, of which the right begins at the state `right`.
pub(crate) fn report_on<M: Machine, O: Order<Label = M::Label>>(
    heap: Global,
    on: &Setting<M, O>,
    right: usize,
) -> Result<String, AllocError>
    requires { right < states (M.Machine.meaning on.now.machine.now) }
    ensures { IfOk result (λ text. string_bytes text ≡ report_lines (setting (O.Order.relation on.now.order.now) (M.Machine.meaning on.now.machine.now)) right) }
{
    let settled = Settled::new(heap, on)?;
    let mut text = String::new(heap);
    let compared = ComparedLine {
        states: on.machine.count(),
    };
    write!(text, "{compared}")?;
    write_classes(on, &settled, &mut text)?;
    write_strikes(on, &settled, &mut text)?;
    let start = StartLine {
        left: 0,
        right,
        is_below: settled.is_below(on, 0, right),
    };
    write!(text, "{start}")?;
    Ok(text)
}
