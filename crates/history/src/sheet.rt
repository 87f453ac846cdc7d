// The sheet, written and read: a verdict and the operations that it lists, in bytes. What is right is said in specs/Sheet.antt.
ghost use Rattle.std.specs.Prelude.{◌≡◌, ◌+◌, ◌*◌, ◌≤◌, ◌<◌, length};
ghost use Rattle.record.specs.Number.{big_endian};
ghost use Rattle.buffer.specs.Buffer.{written};
ghost use Rattle.history.specs.Sheet.{sheet_header, sheet_of, listed_field, is_order_sheet};

use buffer::buffer::put16;
use record::number::be16;

const VERSION: u8 = 1;

// The verdict byte of an order.
const ORDER: u8 = 0;

// The bytes of a sheet before the operations that it lists.
pub const SHEET_HEADER: usize = 4;

// Writes the sheet of a verdict that lists these operations. There is room for it.
pub fn write_sheet(verdict: u32, listed: &[u32], sheet: &mut [u8])
    requires { (verdict < 256) × (sheet_header + 2 * length listed.now ≤ length sheet.old) }
    ensures { sheet.new ≡ written (sheet_of verdict listed.now) sheet.old }
{
    sheet[0] = VERSION;
    sheet[1] = verdict as u8;
    put16(listed.len(), 2, sheet);
    for (i, &o) in listed.iter().enumerate() {
        put16(o as usize, SHEET_HEADER + 2 * i, sheet);
    }
}

// How many operations a sheet says that it lists.
pub fn listed_on(sheet: &[u8]) -> usize
    requires { sheet_header ≤ length sheet.now }
    ensures { (result ≡ listed_field sheet.now) × (result < 65536) }
{
    be16(sheet, 2) as usize
}

// The operation at a place of the list.
pub fn operation_at(sheet: &[u8], i: usize) -> usize
    requires { sheet_header + 2 * i + 2 ≤ length sheet.now }
    ensures { result ≡ big_endian sheet.now (sheet_header + 2 * i) 2 }
{
    be16(sheet, SHEET_HEADER + 2 * i) as usize
}

// Whether a sheet lists an order and is as long as that order.
pub fn is_order_sheet(sheet: &[u8]) -> bool
    ensures { result ≡ is_order_sheet sheet.now }
{
    if sheet.len() < SHEET_HEADER {
        return false;
    }
    if sheet[0] != VERSION {
        return false;
    }
    if sheet[1] != ORDER {
        return false;
    }
    sheet.len() == SHEET_HEADER + 2 * listed_on(sheet)
}
