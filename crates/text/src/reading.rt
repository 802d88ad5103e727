//! Machines read from texts: first all is checked, then memory is filled.
ghost use Rattle.std.specs.Prelude.{◌≡◌, ◌+◌, ◌≤◌, ◌<◌, ◌^◌, length, option_map, Ok, Err, MatchResult, IfOk};
ghost use Rattle.text.specs.declared.fault.Side.TheVariants.{Left, Right};
ghost use Rattle.text.specs.Rows.{label_places, step_places};
ghost use Rattle.text.specs.InOrder.{Within};
ghost use Rattle.text.specs.Readings.{header_on, unless_refused, ReadsAlone, ReadsTwo, side_memory};
ghost use Rattle.text.specs.Leading.{left, rows_left};
ghost use Rattle.text.specs.Filling.{held, stored, Keeps};

use crate::fault::{Fault, Place, Refused, Side};
use crate::label::Spelled;
use crate::lent::Lent;
use crate::order::TextOrder;
use crate::order_line::first_line;
use crate::reader::Reader;
use crate::row::{Due, Form, Row, Shape};
use model::{FlagSet, Span};

/// The most bytes of a text.
pub const TEXT_BOUND: usize = 60_000;

/// What a side is, and how many states it has.
#[derive(Clone, Copy, PartialEq, Eq, Debug)]
pub struct SideRead {
    pub form: Form,
    pub count: usize,
}

/// What was read of two machines. The right is a machine of so many states.
#[derive(Clone, Copy, PartialEq, Eq, Debug)]
pub struct TwoRead {
    pub order: TextOrder,
    pub left: SideRead,
    pub right: usize,
}

/// What the left and the right are, once every row is read.
#[tactic(auto, using(crate::proofs::Headers::seen_start, crate::proofs::Headers::seen_left, crate::proofs::Headers::seen_right, crate::proofs::Headers::seen_neither, crate::proofs::Headers::seen_label, crate::proofs::Headers::seen_step))]
fn headers<O: Spelled>(
    order: &O,
    shape: Shape,
    mut reader: Reader,
) -> Result<(Option<SideRead>, Option<SideRead>), Refused<Place>>
    requires within { Within reader.due }
    requires fits { reader.line + length reader.text.now < 2 ^ 63 }
    ensures { MatchResult (rows_left (O.Spelled.understood order.now) shape (left reader.entry.text.now reader.entry.line reader.entry.due)) (λ rs. result ≡ Ok (header_on Left rs, header_on Right rs)) (λ e. result ≡ Err e) }
{
    let mut left = None;
    let mut right = None;
    while let Some((side, row)) = reader.next_row(order, shape)? {
        if let Row::Header(form, count) = row {
            let read = Some(SideRead { form, count });
            match side {
                Side::Left => left = left.or(read),
                Side::Right => right = right.or(read),
                Side::Order => {}
            }
        }
    }
    Ok((left, right))
}

/// Stores the rows of a side.
#[tactic(auto, using(crate::proofs::Storing::stored_start, crate::proofs::Storing::stored_row))]
fn fill<O: Spelled>(
    order: &O,
    shape: Shape,
    mut reader: Reader,
    side: Side,
    memory: &mut Lent<'_, O::Label>,
)
    requires within { Within reader.due }
    requires fits { reader.line + length reader.text.now < 2 ^ 63 }
    requires labels { label_places ≤ length memory.old.labels.now }
    requires steps { step_places ≤ length memory.old.steps.now }
    ensures { IfOk (rows_left (O.Spelled.understood order.now) shape (left reader.entry.text.now reader.entry.line reader.entry.due)) (λ rs. Keeps memory.old (stored side rs (held memory.old)) memory.new) }
{
    while let Ok(Some((at, row))) = reader.next_row(order, shape) {
        if at == side {
            memory.store(row);
        }
    }
}

/// What is said of a side that has no rows. A text that is read has rows of each of its sides.
const NO_SIDE: SideRead = SideRead {
    form: Form::Machine,
    count: 0,
};

/// Refuses a text that is too long, then short memory.
fn check<P: Copy>(text: &[u8], first: P, is_short: bool) -> Result<(), Refused<P>>
    ensures { result ≡ unless_refused text.now first is_short (Ok tt) }
{
    if text.len() > TEXT_BOUND {
        return Err(Refused {
            fault: Fault::TooLong,
            place: Some(first),
        });
    }
    if is_short {
        return Err(Refused {
            fault: Fault::ShortMemory,
            place: None,
        });
    }
    Ok(())
}

/// Reads the text of a machine alone: its labels, and a step byte for each pair of states, 1 for a step. Answers how many
/// states it has. A refusal leaves memory as it was.
pub fn read_machine<O: Spelled>(
    order: &O,
    text: &[u8],
    labels: &mut [O::Label],
    steps: &mut [u8],
) -> Result<usize, Refused<usize>>
    ensures { ReadsAlone (O.Spelled.understood order.now) text.now (side_memory labels.old steps.old) result (side_memory labels.new steps.new) }
{
    let mut memory = Lent { labels, steps };
    check(text, 1, memory.is_short())?;
    let reader = Reader::new(text, 1, Side::Right);
    let (_, right) = headers(order, Shape::Alone, reader).map_err(Refused::line_alone)?;
    fill(order, Shape::Alone, reader, Side::Right, &mut memory);
    Ok(right.unwrap_or(NO_SIDE).count)
}

/// Where the order of a text stands.
const FIRST: Place = Place {
    side: Side::Order,
    line: 1,
};

/// Reads a text of two machines: of each its labels, and of a machine with steps a byte for each pair of states, 1 for a
/// step. A refusal leaves memory as it was.
pub fn read_two(
    text: &[u8],
    left_labels: &mut [(FlagSet, Span)],
    left_steps: &mut [u8],
    right_labels: &mut [(FlagSet, Span)],
    right_steps: &mut [u8],
) -> Result<TwoRead, Refused<Place>>
    ensures { ReadsTwo text.now (side_memory left_labels.old left_steps.old) (side_memory right_labels.old right_steps.old) result (side_memory left_labels.new left_steps.new) (side_memory right_labels.new right_steps.new) }
{
    let mut left_memory = Lent {
        labels: left_labels,
        steps: left_steps,
    };
    let mut right_memory = Lent {
        labels: right_labels,
        steps: right_steps,
    };
    check(
        text,
        FIRST,
        left_memory.is_short() || right_memory.is_short(),
    )?;
    let (order, rest) = first_line(text).map_err(|fault| Refused {
        fault,
        place: Some(FIRST),
    })?;
    let reader = Reader::new(rest, 2, Side::Left);
    let (left, right) = headers(&order, Shape::Two, reader)?;
    fill(&order, Shape::Two, reader, Side::Left, &mut left_memory);
    fill(&order, Shape::Two, reader, Side::Right, &mut right_memory);
    Ok(TwoRead {
        order,
        left: left.unwrap_or(NO_SIDE),
        right: right.unwrap_or(NO_SIDE).count,
    })
}
