//! Numbers in decimal.
ghost use Rattle.std.specs.Prelude.{◌≡◌, option_map};
ghost use Rattle.text.specs.Lines.{space, pieces_of};
ghost use Rattle.text.specs.Numbers.{number, numbers, at_most_four};

use crate::cut::cut;
use crate::label::LABEL_NUMBERS;
use arrayvec::ArrayVec;
use std::str;

/// The most numbers of a line: that of a state, and those of its label.
const ITEM_NUMBERS: usize = LABEL_NUMBERS + 1;

/// The number that the bytes write in decimal, where a line may hold it: no leading zeros, no plus, no −0.
#[tactic(auto, using(crate::proofs::Numerals::misspelled))]
pub(crate) fn number(bytes: &[u8]) -> Option<i64>
    ensures { result ≡ number bytes.now }
{
    let number = str::from_utf8(bytes).ok()?.parse().ok()?;
    match bytes {
        // `parse` reads these too, and no number is written so.
        [b'+', ..] | [b'0', _, ..] | [b'-', b'0', ..] => None,
        _ => (-(1 << 32)..1 << 32).contains(&number).then_some(number),
    }
}

/// The numbers that the items write, which spaces part, where each is one and there are at most four.
#[tactic(auto, using(crate::proofs::Items::too_many, crate::proofs::Items::one_more))]
pub(crate) fn numbers(mut items: Option<&[u8]>) -> Option<ArrayVec<i64, ITEM_NUMBERS>>
    ensures { option_map (λ v. v.items) result ≡ at_most_four (numbers (pieces_of space items.entry)) }
{
    let mut numbers = ArrayVec::new();
    while let Some(bytes) = items {
        let (item, rest) = cut(bytes, b' ');
        numbers.try_push(number(item)?).ok()?;
        items = rest;
    }
    Some(numbers)
}
