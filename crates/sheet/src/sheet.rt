//! A sheet.

/// How many states the sheet is for, how many strikes are made, and whether it is settled. A flag, and no type of its own
/// for settled sheets: a sheet is plain data in a caller's hands, and a call that needs it settled refuses it else.
#[derive(Clone, Copy, PartialEq, Eq, Debug)]
pub struct Sheet {
    pub count: usize,
    pub strikes: usize,
    pub settled: bool,
}
