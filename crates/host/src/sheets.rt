//! Sheets in bytes.
ghost use Rattle.std.specs.Prelude.{◌≡◌, ◌^◌, ◌<◌, ◌≤◌, length};
ghost use Rattle.host.specs.Bytes.{sheet_in, with_made};
ghost use Rattle.host.specs.Said.{sheet_bytes, number_bytes};

use sheet::Sheet;

/// How many bytes a sheet has.
pub(crate) const SHEET_BYTES: usize = 4;

/// The sheet that an area holds.
pub(crate) fn sheet_in(area: &[u8]) -> Sheet
    requires { 4 ≤ length area.now }
    ensures { result ≡ sheet_in area.now }
{
    Sheet {
        count: usize::from(area[0]),
        strikes: usize::from(u16::from_le_bytes([area[2], area[3]])),
        settled: area[1] != 0,
    }
}

/// A number of strikes or passes, low byte first.
pub(crate) fn number_bytes(number: usize) -> [u8; 2]
    requires { number < 2 ^ 16 }
    ensures { result ≡ number_bytes number }
{
    (number as u16).to_le_bytes()
}

/// The bytes of a whole sheet.
pub(crate) fn sheet_bytes(sheet: Sheet) -> [u8; 4]
    requires count { sheet.count < 2 ^ 8 }
    requires strikes { sheet.strikes < 2 ^ 16 }
    ensures { result ≡ sheet_bytes sheet }
{
    let [low, high] = number_bytes(sheet.strikes);
    [sheet.count as u8, u8::from(sheet.settled), low, high]
}

/// Writes the number of strikes, where the area holds another.
pub(crate) fn write_made(area: &mut [u8], made: usize)
    requires room { 4 ≤ length area.old }
    requires few { made < 2 ^ 16 }
    ensures { area.new ≡ with_made made area.old }
{
    let bytes = number_bytes(made);
    if area[2..4] != bytes[..] {
        area[2..4].copy_from_slice(&bytes);
    }
}
