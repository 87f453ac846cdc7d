// Text in ASCII, written into a lent buffer from a position on. Each function returns the position after what it wrote.
// specs/Text.antt says what is right.
ghost use Rattle.std.specs.Prelude.{◌≡◌, [], ◌∷◌, ◌+◌, ◌-◌, ◌≤◌, ◌<◌, length, replicate};
ghost use Rattle.text.specs.Text.{space, line_feed, decimal, Puts};

use buffer::buffer::copy;

pub const SPACE: u8 = b' ';

const LINE_FEED: u8 = b'\n';

const ZERO: u8 = b'0';

// Writes a byte.
pub fn put_byte(text: &mut [u8], at: usize, byte: u8) -> usize
    requires { at < length text.old }
    ensures { Puts (byte ∷ []) at text.old result text.new }
{
    text[at] = byte;
    at + 1
}

// Writes a byte again and again, up to a position.
pub fn put_run(text: &mut [u8], at: usize, end: usize, byte: u8) -> usize
    requires { (at ≤ end) × (end ≤ length text.old) }
    ensures { (result ≡ end) × Puts (replicate (end - at) byte) at text.old result text.new }
{
    text[at..end].fill(byte);
    end
}

// Writes bytes.
pub fn put_bytes(text: &mut [u8], at: usize, bytes: &[u8]) -> usize
    requires { at + length bytes.now ≤ length text.old }
    ensures { Puts bytes.now at text.old result text.new }
{
    copy(bytes, at, text);
    at + bytes.len()
}

// Writes a number in decimal.
pub fn put_number(text: &mut [u8], at: usize, x: usize) -> usize
    requires { at + length (decimal x) ≤ length text.old }
    ensures { Puts (decimal x) at text.old result text.new }
{
    if x < 10 {
        return put_byte(text, at, ZERO + x as u8);
    }
    let last = put_number(text, at, x / 10);
    put_byte(text, last, ZERO + (x % 10) as u8)
}

// Writes a space and a number.
pub fn put_field(text: &mut [u8], at: usize, x: usize) -> usize
    requires { at + length (space ∷ decimal x) ≤ length text.old }
    ensures { Puts (space ∷ decimal x) at text.old result text.new }
{
    let start = put_byte(text, at, SPACE);
    put_number(text, start, x)
}

// Ends a line.
pub fn end_line(text: &mut [u8], at: usize) -> usize
    requires { at < length text.old }
    ensures { Puts (line_feed ∷ []) at text.old result text.new }
{
    put_byte(text, at, LINE_FEED)
}
