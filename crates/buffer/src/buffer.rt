// Bytes written into a buffer that a caller lends. specs/Buffer.antt says what is left there.
ghost use Rattle.std.specs.Prelude.{◌≡◌, ◌+◌, ◌≤◌, length};
ghost use Rattle.record.specs.Number.{bytes_of};
ghost use Rattle.buffer.specs.Buffer.{put};

// Copies bytes into a buffer, to a position of it.
pub fn copy(bytes: &[u8], at: usize, out: &mut [u8])
    requires { at + length bytes.now ≤ length out.old }
    ensures { out.new ≡ put at bytes.now out.old }
{
    // Byte by byte: copy_from_slice would need memmove of the C library.
    for (i, byte) in bytes.iter().enumerate() {
        out[at + i] = *byte;
    }
}

// Writes a number into the two bytes from a position on, big-endian. Of a number that does not fit it writes the low 16 bits.
#[tactic(auto, unfolding(record::specs::Number::bytes_of))]
pub fn put16(x: usize, at: usize, out: &mut [u8])
    requires { at + 2 ≤ length out.old }
    ensures { out.new ≡ put at (bytes_of 2 x) out.old }
{
    copy(&((x % 65536) as u16).to_be_bytes(), at, out);
}
