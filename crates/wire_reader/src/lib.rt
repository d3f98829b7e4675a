// The Rust's `Reader`: the input beside an offset in it, and thin functions over it, each of which takes the struct
// apart and calls a function of a slice and a number. A state goes in by value; where the next read begins stands in
// the answer.
#![tactic(auto)]

ghost use Rattle.wire_value.specs.Statement.{ReadsValue};
ghost use Rattle.wire.specs.Need.{Needs};
ghost use Rattle.wire_reader.specs.Statement.{ReadsU64};

use wire::error::WireError;
use wire::layout::WORD_SIZE;
use wire::need::need_at;
use wire_value::value::{UnversionedValue, read_value};
use word_read::read_u64;

// The input, and where the next read begins.
#[derive(Clone, Copy)]
pub struct Reader<'a> {
    pub input: &'a [u8],
    pub offset: usize,
}

// A word that was read.
#[derive(Clone, Copy)]
pub struct Word {
    pub value: u64,
    // Where the next read begins.
    pub next: usize,
}

// The word of eight bytes at `offset`, and where the next read begins.
pub fn read_u64_at(input: &[u8], offset: usize) -> Result<Word, WireError>
    ensures { ReadsU64 input.now offset result }
{
    need_at(input, offset, WORD_SIZE)?;
    Ok(Word {
        value: read_u64(input, offset),
        next: offset + WORD_SIZE,
    })
}

impl<'a> Reader<'a> {
    // Whether `count` bytes are left.
    pub fn need(self, count: usize) -> Result<(), WireError>
        ensures { Needs self.entry.input.now self.entry.offset count result }
    {
        need_at(self.input, self.offset, count)
    }

    // The next word.
    pub fn read_u64(self) -> Result<Word, WireError>
        ensures { ReadsU64 self.entry.input.now self.entry.offset result }
    {
        read_u64_at(self.input, self.offset)
    }

    // The next value.
    pub fn read_value(self) -> Result<UnversionedValue, WireError>
        ensures { ReadsValue self.entry.input.now self.entry.offset result }
    {
        read_value(self.input, self.offset)
    }
}
