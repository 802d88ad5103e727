//! Where a formula holds that a text asks of its machine.
ghost use Rattle.std.specs.Prelude.{◌≡◌, ◌+◌, ◌-◌, ◌<◌, ◌≤◌, ◌^◌, length, Some, Ok, Err, IfOk, IfErr, IfSome, IsTrue, MatchResult, string_bytes};
ghost use Rattle.text.specs.Faults.{refused};
ghost use Rattle.text.specs.Readings.{text_bound};
ghost use Rattle.text.specs.FormulaTexts.{formula_places};
ghost use Rattle.until.specs.Lines.{denoted, all_name_earlier};
ghost use Rattle.report.specs.Printed.{holds_lines};
ghost use Rattle.report.specs.Sides.{HasRoom};
ghost use Rattle.report.specs.Refused.{spot};
ghost use Rattle.report.specs.QuestionsAsked.{moved, moved_answer, QuestionAsked, Asks, SaysWhere, IsPrinted};
ghost use Rattle.report.specs.QuestionsRead.{ReadsMachine, ReadsFormula, IsRead};

use crate::lines::HoldsLine;
use crate::places::{Label, Places};
use crate::refused::{Section, Spot};
use crate::report::Report;
use model::{Machine, Order};
use std::alloc::{AllocError, Global};
use text::{FORMULA_PLACES, Fault, Refused, TextOrder, cut_question, read_formula, read_machine};
use until::{Line, Rows, evaluate};

/// A line for each state, with yes where the state's byte in `row` is not zero.
fn holds_lines(heap: Global, row: &[u8]) -> Result<String, AllocError>
    ensures { IfOk result (λ text. string_bytes text ≡ holds_lines row.now (length row.now)) }
{
    let mut text = String::new(heap);
    for (state, byte) in row.iter().enumerate() {
        let line = HoldsLine {
            state,
            holds: *byte != 0,
        };
        write!(text, "{line}")?;
    }
    Ok(text)
}

/// What was read of a text: its order, how many states its machine has, and how many lines its formula.
#[derive(Clone, Copy)]
struct QuestionRead {
    order: TextOrder,
    states: usize,
    lines: usize,
}

impl Section {
    /// A refusal at a line of this part.
    fn refused(self, fault: Fault, line: usize) -> Refused<Spot>
        ensures { result ≡ refused fault (Some (spot self line)) }
    {
        Refused {
            fault,
            place: Some(Spot {
                section: self,
                line,
            }),
        }
    }

    /// A refusal of this part, before which come so many lines.
    fn moved(self, before: usize, refused: Refused<usize>) -> Refused<Spot>
        requires { IfSome refused.place (λ line. before + line < 2 ^ 63) }
        ensures { result ≡ moved self before refused }
    {
        let place = match refused.place {
            Some(line) => Some(Spot {
                section: self,
                line: before + line,
            }),
            None => None,
        };
        Refused {
            fault: refused.fault,
            place,
        }
    }

    /// An answer of this part, before which come so many lines.
    fn moved_answer(
        self,
        before: usize,
        answer: Result<usize, Refused<usize>>,
    ) -> Result<usize, Refused<Spot>>
        requires { IfErr answer (λ refused. IfSome refused.place (λ line. before + line < 2 ^ 63)) }
        ensures { result ≡ moved_answer self before answer }
    {
        match answer {
            Ok(count) => Ok(count),
            Err(refused) => Err(self.moved(before, refused)),
        }
    }
}

/// Reads the text of the machine, which comes after the line of the order.
fn read_states(order: &TextOrder, text: &[u8], places: &mut Places) -> Result<usize, Refused<Spot>>
    requires short { length text.now ≤ text_bound }
    requires places { HasRoom places.old }
    ensures reads { ReadsMachine order.now text.now places.new result }
    ensures places { HasRoom places.new }
{
    let answer = read_machine(order, text, &mut places.labels, &mut places.steps);
    Section::Machine.moved_answer(1, answer)
}

/// Reads the text of the formula, which comes after so many lines.
fn read_lines(
    order: &TextOrder,
    text: &[u8],
    before: usize,
    lines: &mut [Line<Label>],
) -> Result<usize, Refused<Spot>>
    requires short { before ≤ text_bound }
    requires lines { length lines.old ≡ formula_places }
    ensures reads { ReadsFormula order.now text.now before lines.new result }
    ensures lines { length lines.new ≡ formula_places }
{
    let answer = read_formula(order, text, lines);
    Section::Formula.moved_answer(before, answer)
}

/// Reads the parts of a text.
fn read(
    text: &[u8],
    places: &mut Places,
    lines: &mut [Line<Label>],
) -> Result<QuestionRead, Refused<Spot>>
    requires places { HasRoom places.old }
    requires lines { length lines.old ≡ formula_places }
    ensures says { MatchResult result (λ r. (asked : QuestionAsked) × Asks text.now (Ok asked) × IsRead asked r places.new lines.new) (λ e. Asks text.now (Err e)) }
    ensures places { HasRoom places.new }
    ensures lines { length lines.new ≡ formula_places }
{
    let parts = cut_question(text).map_err(|fault| Section::Order.refused(fault, 1))?;
    let states = read_states(&parts.order, parts.machine, places)?;
    let missing = Section::Machine.refused(Fault::OutOfOrder, parts.lines + 1);
    let formula = parts.formula.ok_or(missing)?;
    let lines = read_lines(&parts.order, formula, parts.lines, lines)?;
    Ok(QuestionRead {
        order: parts.order,
        states,
        lines,
    })
}

/// Says where the formula of the last line holds.
fn answer<M: Machine, O: Order<Label = M::Label>>(
    heap: Global,
    order: &O,
    machine: &M,
    lines: &[Line<M::Label>],
) -> Result<String, AllocError>
    requires some { 0 < length lines.now }
    requires few { length lines.now ≤ formula_places }
    requires earlier { IsTrue (all_name_earlier 0 lines.now) }
    ensures { IfOk result (λ text. SaysWhere (O.Order.relation order.now) (M.Machine.meaning machine.now) (denoted lines.now (length lines.now - 1)) (string_bytes text)) }
{
    let width = machine.count();
    let mut bytes = vec![in heap; 0u8; lines.len() * width]?;
    evaluate(machine, order, lines, &mut bytes).unwrap();
    let rows = Rows {
        bytes: &bytes,
        width,
    };
    holds_lines(heap, rows.row(lines.len() - 1))
}

/// Says at which states of the machine of a text its formula holds. Only memory may run out.
pub fn holds(heap: Global, text: &[u8]) -> Result<Report, AllocError>
    ensures printed { IfOk result (IsPrinted text.now) }
{
    let mut places = Places::new(heap)?;
    let mut lines = vec![in heap; Line::True; FORMULA_PLACES]?;
    match read(text, &mut places, &mut lines) {
        Ok(read) => Ok(Report {
            lines: answer(
                heap,
                &read.order,
                &places.table(read.states),
                &lines[..read.lines],
            )?,
            is_refusal: false,
        }),
        Err(refused) => Report::refusal(heap, refused),
    }
}
