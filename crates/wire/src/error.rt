// What went wrong with a rowset, after the Rust's `WireError`, with document 01's 17 and 18. The Rust's
// `AllocationFailed` has no counterpart: nothing is allocated.
ghost use Rattle.words.specs.Paper.{Tells};
ghost use Rattle.wire.specs.Paper.{paper};

use words::outcome::{NoRoom, Outcome, no_room, refusal};

#[derive(Clone, Copy)]
pub enum WireError {
    Truncated { offset: usize, needed: usize },
    TooManyRows { count: u64 },
    TooManyValues { row: usize, count: u64 },
    ValueTooLong { length: u32 },
    RowsetTooLarge { size: usize },
    UnknownValueType(u8),
    TrailingBytes(usize),
    NoRoom(NoRoom),
    // The rule stays a number: the `From` below takes every one, and an enum would ask more of its callers.
    BadTable { rule: u8, position: usize },
}

// A refusal as document 01's number and values.
impl From<WireError> for Outcome {
    ghost from_gives = { λ error result. Tells (paper error) result };

    fn from(error: WireError) -> Outcome {
        match error {
            WireError::Truncated { offset, needed } => {
                refusal(9, 0, offset as u64, needed as u64, 0)
            }
            WireError::TooManyRows { count } => refusal(10, 0, count, 0, 0),
            WireError::TooManyValues { row, count } => refusal(11, 0, row as u64, count, 0),
            WireError::ValueTooLong { length } => refusal(12, 0, length as u64, 0, 0),
            WireError::RowsetTooLarge { size } => refusal(13, 0, size as u64, 0, 0),
            WireError::UnknownValueType(code) => refusal(14, 0, code as u64, 0, 0),
            WireError::TrailingBytes(count) => refusal(15, 0, count as u64, 0, 0),
            WireError::NoRoom(short) => no_room(short),
            WireError::BadTable { rule, position } => {
                refusal(18, 0, rule as u64, position as u64, 0)
            }
        }
    }
}
