// The walk over a rowset: every check of the reader but those of the room, each with what it tells a person.
ghost use Rattle.std.specs.Prelude.{◌≤◌, ◌+◌, length};
ghost use Rattle.why_rowset.specs.Stages.{WalksValues, WalksRow, WalksRows, WalksRowset};

use super::value::{refused, short, walk_value};
use finding::{Field, Finding, Wanted};
use wire::error::WireError;
use wire::layout::{MAX_ROWS_PER_ROWSET, MAX_VALUES_PER_ROW, NULL_ROW_MARKER, WORD_SIZE};
use word_read::read_u64;

// Where a walk comes to.
#[derive(Clone, Copy)]
pub(crate) struct Walked {
    // What broke the plain form first so far. It stands where a refusal's finding does, so that a null row's is not taken
    // apart and put together again.
    pub(crate) plain: Finding,
    // Where the next read begins.
    pub(crate) next: usize,
}

// So many values, front to back.
fn walk_values(input: &[u8], count: usize, start: usize, before: Finding) -> Result<Walked, Finding>
    requires { start ≤ length input.now }
    ensures { WalksValues input.now count start before result }
{
    let mut at = start;
    let mut plain = before;
    for _n in 0..count {
        let walked = walk_value(input, at, plain)?;
        at = walked.next;
        plain = walked.plain;
    }
    Ok(Walked { next: at, plain })
}

// The count of a row and its values: 9, 11, then the values'.
fn walk_row(input: &[u8], row: usize, at: usize, plain: Finding) -> Result<Walked, Finding>
    requires { at ≤ length input.now }
    ensures { WalksRow input.now row at plain result }
{
    let there = input.len() - at;
    if there < WORD_SIZE {
        return Err(short(Field::ValueCount, at, there, WORD_SIZE));
    }
    let count = read_u64(input, at);
    if count == NULL_ROW_MARKER {
        return Ok(Walked {
            next: at + WORD_SIZE,
            plain,
        });
    }
    if MAX_VALUES_PER_ROW < count {
        return Err(refused(
            WireError::TooManyValues { row, count },
            Field::ValueCount,
            at,
            count,
            Wanted::Number(MAX_VALUES_PER_ROW),
        ));
    }
    walk_values(input, count as usize, at + WORD_SIZE, plain)
}

// So many rows, behind the row count.
fn walk_rows(input: &[u8], count: usize) -> Result<Walked, Finding>
    requires { 8 ≤ length input.now }
    ensures { WalksRows input.now count result }
{
    let mut at = WORD_SIZE;
    let mut plain = Finding::Fine;
    for row in 0..count {
        let walked = walk_row(input, row, at, plain)?;
        at = walked.next;
        plain = walked.plain;
    }
    Ok(Walked { next: at, plain })
}

// What stands behind the row count: 10, the rows, and 15 at the end.
fn walk_body(input: &[u8]) -> Result<Walked, Finding>
    requires { 8 ≤ length input.now }
    ensures { WalksRowset input.now result }
{
    let count = read_u64(input, 0);
    if MAX_ROWS_PER_ROWSET < count {
        return Err(refused(
            WireError::TooManyRows { count },
            Field::RowCount,
            0,
            count,
            Wanted::Number(MAX_ROWS_PER_ROWSET),
        ));
    }
    let walked = walk_rows(input, count as usize)?;
    let end = walked.next;
    if end < input.len() {
        let left = input.len() - end;
        return Err(refused(
            WireError::TrailingBytes(left),
            Field::TrailingBytes,
            end,
            left as u64,
            Wanted::Number(0),
        ));
    }
    Ok(walked)
}

// Every check of an input, and what breaks the plain form first where all of them pass.
pub(crate) fn walk_rowset(input: &[u8]) -> Result<Walked, Finding>
    ensures { WalksRowset input.now result }
{
    let there = input.len();
    if there < WORD_SIZE {
        return Err(short(Field::RowCount, 0, there, WORD_SIZE));
    }
    walk_body(input)
}
