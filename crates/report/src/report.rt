//! What a program prints.
ghost use Rattle.std.specs.Prelude.{◌≡◌, true, IfOk, string_bytes};
ghost use Rattle.report.specs.Refused.{refused_line};

use crate::refused::{RefusedLine, Spot};
use std::alloc::{AllocError, Global};
use text::Refused;

/// What is printed of a text.
#[derive(Drop)]
pub struct Report {
    pub lines: String,
    /// The text was refused, and the lines are one that says so.
    pub is_refusal: bool,
}

impl Report {
    /// The line of a refusal.
    pub(crate) fn refusal(heap: Global, refused: Refused<Spot>) -> Result<Report, AllocError>
        ensures line { IfOk result (λ report. string_bytes report.lines ≡ refused_line refused) }
        ensures refusal { IfOk result (λ report. report.is_refusal ≡ true) }
    {
        Ok(Report {
            lines: RefusedLine { refused }.to_string(heap)?,
            is_refusal: true,
        })
    }
}
