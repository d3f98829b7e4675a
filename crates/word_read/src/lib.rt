// Little-endian words of 2, 4 and 8 bytes, read at any offset of a slice: Rust's `from_le_bytes`. A byte past the
// slice's end counts as 0. What a word is stands in the specs/ of `words`.
#![tactic(auto)]

ghost use Rattle.std.specs.Prelude.{◌+◌, ◌≤◌, length};
ghost use Rattle.words.specs.Statement.{ReadsWord};

// Where the whole word is there it is one load.

fn whole_u16(s: &[u8], at: usize) -> u16
    requires { at + 2 ≤ length s.now }
    ensures { ReadsWord 2 s.now at result }
{
    u16::from_le_bytes(s[at..at + 2].try_into().unwrap())
}

fn whole_u32(s: &[u8], at: usize) -> u32
    requires { at + 4 ≤ length s.now }
    ensures { ReadsWord 4 s.now at result }
{
    u32::from_le_bytes(s[at..at + 4].try_into().unwrap())
}

fn whole_u64(s: &[u8], at: usize) -> u64
    requires { at + 8 ≤ length s.now }
    ensures { ReadsWord 8 s.now at result }
{
    u64::from_le_bytes(s[at..at + 8].try_into().unwrap())
}

// The three below are not one function over a type: `from_le_bytes` is each integer's own and no trait's, and a word
// that the end cuts is made of two of the next smaller ones.

// The two bytes at `at` as a word.
pub fn read_u16(s: &[u8], at: usize) -> u16
    ensures { ReadsWord 2 s.now at result }
{
    if s.len() <= at {
        return 0;
    }
    if s.len() - at < 2 {
        return s[at] as u16;
    }
    whole_u16(s, at)
}

// The four bytes at `at` as a word.
pub fn read_u32(s: &[u8], at: usize) -> u32
    ensures { ReadsWord 4 s.now at result }
{
    if s.len() <= at {
        return 0;
    }
    if s.len() - at < 4 {
        return (read_u16(s, at) as u32) + 0x1_0000 * (read_u16(s, at + 2) as u32);
    }
    whole_u32(s, at)
}

// The eight bytes at `at` as a word.
pub fn read_u64(s: &[u8], at: usize) -> u64
    ensures { ReadsWord 8 s.now at result }
{
    if s.len() <= at {
        return 0;
    }
    if s.len() - at < 8 {
        return (read_u32(s, at) as u64) + 0x1_0000_0000 * (read_u32(s, at + 4) as u64);
    }
    whole_u64(s, at)
}
