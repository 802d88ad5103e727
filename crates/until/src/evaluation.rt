//! Evaluation of formulas, line by line.
//!
//! The machine and the order are two parameters of these three functions, one of them public: a struct of both would
//! shorten two calls, and lengthen each clause. A state is a plain number, by which rows are read, and is asked to be one.
ghost use Rattle.std.specs.Prelude.{◌≡◌, ◌+◌, ◌*◌, ◌<◌, ◌≤◌, length, Decides};
ghost use Rattle.model.specs.Machines.{states};
ghost use Rattle.until.specs.Lines.{Evaluates};
ghost use Rattle.until.specs.Filled.{HoldsBy, Filled};

use crate::formula::{Line, all_name_earlier};
use crate::rows::Rows;
use crate::search::walk_exists;
use model::{Machine, Order, Refusal};

/// Whether a line holds at state `s`, by the rows of the lines before it.
fn holds_at<M: Machine, O: Order<Label = M::Label>>(
    machine: &M,
    order: &O,
    line: &Line<M::Label>,
    rows: Rows,
    s: usize,
) -> bool
    requires state { s < states (M.Machine.meaning machine.now) }
    requires byte_for_each_state { rows.width ≡ states (M.Machine.meaning machine.now) }
    ensures { Decides result (HoldsBy (O.Order.relation order.now) (M.Machine.meaning machine.now) rows.entry.bytes.now line.now s) }
{
    match line {
        Line::True => true,
        Line::At(label) => machine
            .label(s)
            .is_some_and(|own| order.at_most(label, &own)),
        Line::And(f, g) => rows.is_marked(*f, s) && rows.is_marked(*g, s),
        Line::Until(f, g) => walk_exists(machine, rows.row(*f), rows.row(*g), s),
    }
}

/// Fills the row of line `k`, and touches nothing else.
fn fill_row<M: Machine, O: Order<Label = M::Label>>(
    machine: &M,
    order: &O,
    line: &Line<M::Label>,
    k: usize,
    bytes: &mut [u8],
)
    requires { k * states (M.Machine.meaning machine.now) + states (M.Machine.meaning machine.now) ≤ length bytes.old }
    ensures { Filled (O.Order.relation order.now) (M.Machine.meaning machine.now) line.now k bytes.old bytes.new }
{
    let width = machine.count();
    let (before, rest) = bytes.split_at_mut(k * width);
    let rows = Rows {
        bytes: before,
        width,
    };
    for (s, byte) in rest[..width].iter_mut().enumerate() {
        *byte = u8::from(holds_at(machine, order, line, rows, s));
    }
}

/// Evaluates the formulas that the lines denote at every state: the byte at line × n + state becomes 1
/// where the line holds and 0 elsewhere, for a machine of n states. Memory too short for that is refused,
/// then a line that names a line that is not earlier. The memory past the rows is untouched, and all of it by a refusal.
pub fn evaluate<M: Machine, O: Order<Label = M::Label>>(
    machine: &M,
    order: &O,
    lines: &[Line<M::Label>],
    rows: &mut [u8],
) -> Result<(), Refusal>
    ensures { Evaluates (O.Order.relation order.now) (M.Machine.meaning machine.now) lines.now rows.old result rows.new }
{
    let fits = lines
        .len()
        .checked_mul(machine.count())
        .is_some_and(|size| size <= rows.len());
    if !fits {
        return Err(Refusal::ShortMemory);
    }
    if !all_name_earlier(lines) {
        return Err(Refusal::LineNotEarlier);
    }
    for (k, line) in lines.iter().enumerate() {
        fill_row(machine, order, line, k, rows);
    }
    Ok(())
}
