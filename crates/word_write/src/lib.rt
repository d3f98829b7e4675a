// Little-endian words of 2, 4 and 8 bytes and runs of bytes, written to the front of a lent part: Rust's `put_*_le`,
// `put_slice` and `put_bytes`. What does not fit is not written at all. What a word is stands in the specs/ of `words`.
#![tactic(auto)]

ghost use Rattle.std.specs.Prelude.{replicate};
ghost use Rattle.words.specs.Word.{bytes_of};
ghost use Rattle.words.specs.Statement.{Leaves};

// Writes a word of two bytes.
pub fn write_u16(out: &mut [u8], short: u16)
    ensures { Leaves (bytes_of 2 short) out.old out.new }
{
    write_bytes(out, &short.to_le_bytes());
}

// Writes a word of four bytes.
pub fn write_u32(out: &mut [u8], word: u32)
    ensures { Leaves (bytes_of 4 word) out.old out.new }
{
    write_bytes(out, &word.to_le_bytes());
}

// Writes a word of eight bytes.
pub fn write_u64(out: &mut [u8], long: u64)
    ensures { Leaves (bytes_of 8 long) out.old out.new }
{
    write_bytes(out, &long.to_le_bytes());
}

// Writes a run of bytes.
pub fn write_bytes(out: &mut [u8], bytes: &[u8])
    ensures { Leaves bytes.now out.old out.new }
{
    if out.len() < bytes.len() {
        return;
    }
    out[..bytes.len()].copy_from_slice(bytes);
}

// `count` bytes of 0. `out` may be longer than they are.
pub fn write_zeros(out: &mut [u8], count: usize)
    ensures { Leaves (replicate count 0) out.old out.new }
{
    if out.len() < count {
        return;
    }
    out[..count].fill(0);
}
