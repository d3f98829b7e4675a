// A row's word, padding, and the sizes and limits of a rowset, for its readers and its writer.
ghost use Rattle.wire.specs.Statement.{CountsValues, Pads, Flags};

pub const NULL_ROW_MARKER: u64 = 0xffff_ffff_ffff_ffff;

pub const MAX_ROWS_PER_ROWSET: u64 = 5 * 1024 * 1024;

pub const MAX_VALUES_PER_ROW: u64 = 1024;

pub const MAX_VALUE_LENGTH: u32 = 16 * 1024 * 1024;

// One rowset is one part of a packet.
pub const MAX_ROWSET_SIZE: usize = 1024 * 1024 * 1024;

// The words of a value's entry.
pub const ENTRY_WORDS: usize = 5;

// The bytes of a count, of a value's header and of a scalar.
pub const WORD_SIZE: usize = 8;

// How many values a row's word stands for: a null row has none.
pub fn values_in(count: u64) -> u64
    ensures { CountsValues count result }
{
    if count == NULL_ROW_MARKER {
        return 0;
    }
    count
}

// The length with its padding to a multiple of eight.
pub fn padded(length: u32) -> usize
    ensures { Pads length result }
{
    let n = length as usize;
    n + (WORD_SIZE - n % WORD_SIZE) % WORD_SIZE
}

// 1 for any number but 0.
pub fn flag(n: u64) -> u64
    ensures { Flags n result }
{
    if n == 0 { 0 } else { 1 }
}
