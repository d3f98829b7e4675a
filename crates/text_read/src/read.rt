// A rowset's text read into lent tables and a lent area. A row is one word and a value five, as the rowset's reader
// fills them, and blobs lie back to back in the area.
ghost use Rattle.std.specs.Prelude.{◌≡◌};
ghost use Rattle.text_read.specs.Statement.{ReadsText};

use super::fill::fill_text;
use text_walk::error::TextError;
use text_walk::walk::{Walked, count_text};
use wire::error::WireError;
use wire::layout::ENTRY_WORDS;
use words::outcome::{NoRoom, Room};

// 17: what ran short.
fn short(room: Room, needed: usize, given: usize) -> TextError
    ensures { result ≡ TextError.Limit (WireError.NoRoom (record { room = room; needed = needed; given = given })) }
{
    TextError::Limit(WireError::NoRoom(NoRoom {
        room,
        needed: needed as u64,
        given: given as u64,
    }))
}

// Reads a text into the two tables and the area; a refusal leaves them as they were.
pub fn read_text(
    text: &[u8],
    rows: &mut [u64],
    values: &mut [u64],
    area: &mut [u8],
) -> Result<Walked, TextError>
    ensures { ReadsText text.now rows.old values.old area.old result
        rows.new values.new area.new }
{
    let Walked {
        rows: count,
        values: entries,
        bytes,
    } = count_text(text)?;
    if rows.len() < count {
        return Err(short(Room::Rows, count, rows.len()));
    }
    if values.len() / ENTRY_WORDS < entries {
        return Err(short(Room::Values, entries, values.len() / ENTRY_WORDS));
    }
    if area.len() < bytes {
        return Err(short(Room::Output, bytes, area.len()));
    }
    fill_text(text, rows, values, area);
    Ok(Walked {
        rows: count,
        values: entries,
        bytes,
    })
}
