// A rowset read into lent tables, after the Rust's `decode_rowset`. A row is one word, its count or the null mark; a
// value is five: id, type, aggregate, scalar bits or blob offset, blob length.
ghost use Rattle.wire_read.specs.Statement.{Decodes};

use super::fill::fill_rows;
use super::walk::walk_rowset;
use wire::error::WireError;
use wire::layout::ENTRY_WORDS;
use word_read::read_u64;
use words::outcome::{NoRoom, Room};

// How many rows and values were read.
#[derive(Clone, Copy)]
pub struct Decoded {
    pub rows: usize,
    pub values: usize,
}

// Reads a rowset into the two tables; a refusal leaves them as they were.
pub fn decode_rowset(
    input: &[u8],
    rows: &mut [u64],
    values: &mut [u64],
) -> Result<Decoded, WireError>
    ensures { Decodes input.now rows.old values.old result rows.new
        values.new }
{
    let walked = walk_rowset(input)?;
    let entries = walked.values;
    let count = read_u64(input, 0) as usize;
    if rows.len() < count {
        return Err(WireError::NoRoom(NoRoom {
            room: Room::Rows,
            needed: count as u64,
            given: rows.len() as u64,
        }));
    }
    let room = values.len() / ENTRY_WORDS;
    if room < entries {
        return Err(WireError::NoRoom(NoRoom {
            room: Room::Values,
            needed: entries as u64,
            given: room as u64,
        }));
    }
    fill_rows(input, count, rows, values);
    Ok(Decoded {
        rows: count,
        values: entries,
    })
}
