// The types of values by their codes, the kinds that they fall into, and a scalar's bits. Elsewhere codes are compared
// only to tell a boolean from the other scalars. A type is its code, a `u64`, in all crates of rowsets and of their
// text: so it stands among the words of the tables that C lends, which may hold any number there.
ghost use Rattle.wire.specs.Statement.{IsKind, IsBits};

use super::layout::flag;

pub const NULL: u64 = 2;

pub const INT64: u64 = 3;

pub const UINT64: u64 = 4;

pub const DOUBLE: u64 = 5;

pub const BOOLEAN: u64 = 6;

pub const STRING: u64 = 16;

pub const ANY: u64 = 17;

pub const COMPOSITE: u64 = 18;

#[derive(Clone, Copy)]
pub enum Kind {
    // No payload.
    Null,
    // Int64, Uint64, Double, Boolean: one word.
    Scalar,
    // String, Any, Composite: bytes and their padding.
    Blob,
    Unknown,
}

// The kind of a type's code. No `From<u64>`: that the number is a type's code would no longer stand at the calls.
#[tactic(auto, unfolding(crate::specs::Kind::kind_of))]
pub fn kind_of(code: u64) -> Kind
    ensures { IsKind code result }
{
    match code {
        NULL => Kind::Null,
        INT64..=BOOLEAN => Kind::Scalar,
        STRING..=COMPOSITE => Kind::Blob,
        _ => Kind::Unknown,
    }
}

// A scalar's bits: its word, and of a boolean whether the word is 0.
pub fn bits_of(code: u64, word: u64) -> u64
    ensures { IsBits code word result }
{
    if code == BOOLEAN {
        return flag(word);
    }
    word
}
