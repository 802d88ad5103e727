//! Sheets with their memory, for the examples of the sheet.
use model::{FlagSet, Flags, Machine, Refusal, Table};
use sheet::{Setting, Sheet, StrikeSlice};
use strikes::{Ground, Strike};

pub(crate) const ONE: FlagSet = FlagSet { bits: 1 };

pub(crate) const TWO: FlagSet = FlagSet { bits: 2 };

pub(crate) const BLANK: Strike = Strike {
    first: 0,
    second: 0,
    ground: Ground::ByLabel,
};

/// A sheet with its memory: a place more than five states need.
#[derive(Clone, Copy, PartialEq, Eq, Debug)]
pub(crate) struct Page {
    pub(crate) sheet: Sheet,
    pub(crate) pairs: [u8; 26],
    pub(crate) records: [Strike; 26],
}

/// A page for three states where every byte is 7.
pub(crate) const SEVENS: Page = Page {
    sheet: Sheet {
        count: 3,
        strikes: 0,
        settled: false,
    },
    pairs: [7; 26],
    records: [BLANK; 26],
};

pub(crate) fn strike(first: u8, second: u8, ground: Ground) -> Strike {
    Strike {
        first,
        second,
        ground,
    }
}

/// Labels 1 and 2 with a step from the first to the second.
pub(crate) fn two() -> Table<'static, FlagSet> {
    Table::new(&[ONE, TWO], &[0, 1, 0, 0])
}

/// The same beside the label 1 alone, as one table.
pub(crate) fn two_beside_one() -> Table<'static, FlagSet> {
    Table::new(&[ONE, TWO, ONE], &[0, 1, 0, 0, 0, 0, 0, 0, 0])
}

/// Its page once settled.
pub(crate) fn settled_page() -> Page {
    let mut page = SEVENS;
    page.sheet.strikes = 5;
    page.sheet.settled = true;
    page.pairs[..9].copy_from_slice(&[1, 0, 0, 0, 1, 0, 1, 0, 1]);
    page.records[..5].copy_from_slice(&[
        strike(0, 1, Ground::ByLabel),
        strike(1, 0, Ground::ByLabel),
        strike(1, 2, Ground::ByLabel),
        strike(2, 1, Ground::ByLabel),
        strike(0, 2, Ground::ByStep(1)),
    ]);
    page
}

/// A page begun and settled, with the strikes made and the passes taken.
pub(crate) fn settled<M: Machine<Label = FlagSet>>(
    machine: &M,
) -> Result<(Page, (usize, usize)), Refusal> {
    let on = Setting {
        machine,
        order: &Flags {},
    };
    let mut page = SEVENS;
    let mut strikes = StrikeSlice {
        items: &mut page.records,
    };
    page.sheet = Sheet::begin(machine, &mut page.pairs, &strikes)?;
    let made = page.sheet.settle(&on, &mut page.pairs, &mut strikes)?;
    Ok((page, made))
}
