// The first walk over a rowset: every check but those of the room, and how many values there are. It touches no table.
ghost use Rattle.std.specs.Prelude.{◌≤◌, ◌+◌, length};
ghost use Rattle.wire_read.specs.Stages.{WalksValues, WalksRow, WalksRows, WalksRowset};

use wire::error::WireError;
use wire::layout::{MAX_ROWS_PER_ROWSET, MAX_VALUES_PER_ROW, NULL_ROW_MARKER, WORD_SIZE};
use wire::need::need_at;
use wire_value::value::check_value;
use word_read::read_u64;

// Where a walk comes to.
#[derive(Clone, Copy)]
pub(crate) struct Walked {
    // Where the next read begins.
    pub(crate) next: usize,
    // How many values were passed.
    pub(crate) values: usize,
}

// The checks of so many values, front to back.
fn walk_values(input: &[u8], count: usize, start: usize) -> Result<Walked, WireError>
    requires { start ≤ length input.now }
    ensures { WalksValues input.now count start result }
{
    let mut at = start;
    for _n in 0..count {
        let checked = check_value(input, at)?;
        at = checked.next;
    }
    Ok(Walked {
        next: at,
        values: count,
    })
}

// The count of a row and its values: 9, 11, then the values'.
fn walk_row(input: &[u8], row: usize, at: usize) -> Result<Walked, WireError>
    requires { at ≤ length input.now }
    ensures { WalksRow input.now row at result }
{
    need_at(input, at, WORD_SIZE)?;
    let count = read_u64(input, at);
    if count == NULL_ROW_MARKER {
        return Ok(Walked {
            next: at + WORD_SIZE,
            values: 0,
        });
    }
    if MAX_VALUES_PER_ROW < count {
        return Err(WireError::TooManyValues { row, count });
    }
    walk_values(input, count as usize, at + WORD_SIZE)
}

// So many rows, behind the row count.
fn walk_rows(input: &[u8], count: usize) -> Result<Walked, WireError>
    requires { 8 ≤ length input.now }
    ensures { WalksRows input.now count 0 8 result }
{
    let mut at = WORD_SIZE;
    let mut values = 0;
    for row in 0..count {
        let walked = walk_row(input, row, at)?;
        at = walked.next;
        values += walked.values;
    }
    Ok(Walked { next: at, values })
}

// What stands behind the row count: 10, the rows, and 15 at the end.
fn walk_body(input: &[u8]) -> Result<Walked, WireError>
    requires { 8 ≤ length input.now }
    ensures { WalksRowset input.now result }
{
    let count = read_u64(input, 0);
    if MAX_ROWS_PER_ROWSET < count {
        return Err(WireError::TooManyRows { count });
    }
    let walked = walk_rows(input, count as usize)?;
    if walked.next < input.len() {
        return Err(WireError::TrailingBytes(input.len() - walked.next));
    }
    Ok(walked)
}

// Every check of an input but those of the room.
pub(crate) fn walk_rowset(input: &[u8]) -> Result<Walked, WireError>
    ensures { WalksRowset input.now result }
{
    need_at(input, 0, WORD_SIZE)?;
    walk_body(input)
}
