//! A text read line by line.
ghost use Rattle.std.specs.Prelude.{◌≡◌, ◌+◌, ◌<◌, ◌^◌, length, Some, IfOk};
ghost use Rattle.text.specs.declared.row.Due.TheVariants.{Header as HeaderDue};
ghost use Rattle.text.specs.Rows.{row_of, side_of_line};
ghost use Rattle.text.specs.InOrder.{Within, Fits};
ghost use Rattle.text.specs.Faults.{place};
ghost use Rattle.text.specs.Readings.{end_fault, placed};
ghost use Rattle.text.specs.Leading.{left, Leads};

use crate::cut::cut;
use crate::fault::{Fault, Place, Refused, Side};
use crate::form::is_line;
use crate::label::Spelled;
use crate::line::{row_by, word_and_items};
use crate::row::{Due, Row, Shape};

/// What is left of a text: its bytes from the line of this number on, and what is due there.
#[derive(Clone, Copy)]
pub(crate) struct Reader<'a> {
    pub(crate) text: &'a [u8],
    pub(crate) line: usize,
    pub(crate) due: Due,
}

impl<'a> Reader<'a> {
    /// The text from a side on, whose header is this line.
    pub(crate) fn new(text: &'a [u8], line: usize, side: Side) -> Reader<'a>
        ensures bytes { result.text.now ≡ text.now }
        ensures line { result.line ≡ line }
        ensures due { result.due ≡ HeaderDue side 0 }
    {
        Reader {
            text,
            line,
            due: Due::Header(side, 0),
        }
    }

    /// The side of the next line, and what it says there, or what is wrong with it.
    fn says<O: Spelled>(
        &self,
        order: &O,
        shape: Shape,
        line: &[u8],
    ) -> (Side, Result<Row<O::Label>, Fault>)
        requires { Within self.now.due }
        ensures side { result.0 ≡ side_of_line self.now.due line.now }
        ensures row { result.1 ≡ row_of (O.Spelled.understood order.now) shape self.now.due line.now }
        ensures fits { IfOk result.1 (λ r. Fits self.now.due r) }
    {
        if !is_line(line) {
            return (self.due.side(), Err(Fault::NoForm));
        }
        let (word, items) = word_and_items(line);
        (
            self.due.side_by(word),
            row_by(order, shape, self.due, word, items),
        )
    }

    /// The place of the next line, on this side.
    fn place(&self, side: Side) -> Option<Place>
        ensures { result ≡ Some (place side self.now.line) }
    {
        Some(Place {
            side,
            line: self.line,
        })
    }

    /// The row, or its fault at its place.
    fn placed<L>(&self, side: Side, row: Result<Row<L>, Fault>) -> Result<Row<L>, Refused<Place>>
        ensures { result ≡ placed side self.now.line row }
    {
        let place = self.place(side);
        row.map_err(|fault| Refused { fault, place })
    }

    /// What is wrong with the end, where `last` follows the last newline.
    fn end_fault(&self, last: &[u8]) -> Option<Fault>
        ensures { result ≡ end_fault self.now.due last.now }
    {
        if !last.is_empty() {
            return Some(Fault::NoForm);
        }
        (!self.due.may_end()).then_some(Fault::OutOfOrder)
    }

    /// The next row with its side, or nothing at the end.
    #[tactic(auto, using(crate::proofs::Leading::leads_row, crate::proofs::Leading::leads_fault, crate::proofs::Leading::leads_end, crate::proofs::Storing::storable))]
    pub(crate) fn next_row<O: Spelled>(
        &mut self,
        order: &O,
        shape: Shape,
    ) -> Result<Option<(Side, Row<O::Label>)>, Refused<Place>>
        requires within { Within self.old.due }
        requires fits { self.old.line + length self.old.text.now < 2 ^ 63 }
        ensures leads { Leads (O.Spelled.understood order.now) shape (left self.old.text.now self.old.line self.old.due) result (left self.new.text.now self.new.line self.new.due) }
        ensures within { Within self.new.due }
        ensures fits { self.new.line + length self.new.text.now < 2 ^ 63 }
    {
        let (line, rest) = cut(self.text, b'\n');
        let Some(rest) = rest else {
            let fault = self.end_fault(line);
            let place = self.place(self.due.side());
            return fault.map_or(Ok(None), |fault| Err(Refused { fault, place }));
        };
        let (side, row) = self.says(order, shape, line);
        let row = self.placed(side, row)?;
        self.due = self.due.after(&row);
        self.text = rest;
        self.line += 1;
        Ok(Some((side, row)))
    }
}
