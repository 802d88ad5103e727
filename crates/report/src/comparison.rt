//! Two machines that a text says, compared.
ghost use Rattle.std.specs.Prelude.{◌≡◌, ◌+◌, ◌<◌, ◌≤◌, Ok, Err, IfOk, MatchResult, is_err, string_bytes};
ghost use Rattle.model.specs.Machines.{states, state_bound, beside_meaning};
ghost use Rattle.sheet.specs.Verdicts.{setting};
ghost use Rattle.text.specs.declared.row.Form.TheVariants.{Machine as MachineForm};
ghost use Rattle.text.specs.Readings.{Said};
ghost use Rattle.text.specs.OrderLines.{text_at_most};
ghost use Rattle.report.specs.Reports.{report_lines};
ghost use Rattle.report.specs.Comparisons.{read_of, printed};
ghost use Rattle.report.specs.TextTells.{TextTells};
ghost use Rattle.report.specs.Sides.{HasRoom, first_states, AreSides};

use crate::places::Places;
use crate::refused::Spot;
use crate::report::Report;
use crate::writing::report_on;
use model::{Beside, Machine, Order};
use sheet::Setting;
use std::alloc::{AllocError, Global};
use text::{Form, Place, Refused, TwoRead, read_two};

/// The report on two machines.
fn report_beside<
    A: Machine + Drop,
    B: Machine<Label = A::Label> + Drop,
    O: Order<Label = A::Label>,
>(heap: Global, order: &O, left: A, right: B) -> Result<String, AllocError>
    requires some { 0 < states (B.Machine.meaning right) }
    requires few { states (A.Machine.meaning left) + states (B.Machine.meaning right) ≤ state_bound }
    ensures { IfOk result (λ text. string_bytes text ≡ report_lines (setting (O.Order.relation order.now) (beside_meaning (A.Machine.meaning left) (B.Machine.meaning right))) (states (A.Machine.meaning left))) }
{
    let start = left.count();
    let machine = Beside { left, right };
    let on = Setting {
        machine: &machine,
        order,
    };
    report_on(heap, &on, start)
}

/// The report on two machines that were read.
fn report_read(
    heap: Global,
    two: &TwoRead,
    left: &Places,
    right: &Places,
) -> Result<String, AllocError>
    requires some { 0 < two.now.right }
    requires few { two.now.left.count + two.now.right ≤ state_bound }
    requires left { HasRoom left.now }
    requires right { HasRoom right.now }
    ensures { let before = first_states two.now.left.form two.now.left.count left.now in
        let after = first_states MachineForm two.now.right right.now in
        IfOk result (λ text. string_bytes text ≡ report_lines (setting (text_at_most two.now.order) (beside_meaning before after)) (states before)) }
{
    let n = two.left.count;
    let machine = right.table(two.right);
    match two.left.form {
        Form::Machine => report_beside(heap, &two.order, left.table(n), machine),
        Form::Trace => report_beside(heap, &two.order, left.trace(n), machine),
    }
}

/// Reads both sides of a text.
fn read(text: &[u8], left: &mut Places, right: &mut Places) -> Result<TwoRead, Refused<Place>>
    requires left { HasRoom left.old }
    requires right { HasRoom right.old }
    ensures says { MatchResult result (λ two. (said : Said) × (read_of text.now ≡ Ok said) × AreSides said two left.new right.new) (λ e. read_of text.now ≡ Err e) }
    ensures left { HasRoom left.new }
    ensures right { HasRoom right.new }
{
    read_two(
        text,
        &mut left.labels,
        &mut left.steps,
        &mut right.labels,
        &mut right.steps,
    )
}

/// Compares the two machines of a text. Only memory may run out.
#[tactic(auto, using(crate::proofs::TextTells::read_tells))]
pub fn compare(heap: Global, text: &[u8]) -> Result<Report, AllocError>
    ensures lines { IfOk result (λ report. string_bytes report.lines ≡ printed text.now) }
    ensures refusal { IfOk result (λ report. report.is_refusal ≡ is_err (read_of text.now)) }
    ensures tells { IfOk (read_of text.now) TextTells }
{
    let mut left = Places::new(heap)?;
    let mut right = Places::new(heap)?;
    match read(text, &mut left, &mut right) {
        Ok(two) => Ok(Report {
            lines: report_read(heap, &two, &left, &right)?,
            is_refusal: false,
        }),
        Err(refused) => Report::refusal(
            heap,
            Refused {
                fault: refused.fault,
                place: refused.place.map(Spot::from),
            },
        ),
    }
}
