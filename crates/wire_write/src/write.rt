// A rowset's bytes, each value's written at its own stretch of the output, after the Rust's `encode_rowset_unchecked`.
ghost use Rattle.std.specs.Prelude.{◌≡◌, false, ◌+◌, ◌*◌, ◌%◌, ◌≤◌};
ghost use lib.ListN.{length};
ghost use Rattle.words.specs.Word.{bytes_of};
ghost use Rattle.wire.specs.Layout.{entry_words, values_in, value_bytes, entry_bytes, values_bytes, row_bytes, rows_bytes};
ghost use Rattle.wire_check.specs.Writing.{total, bad, bad_entry};
ghost use Rattle.wire_check.specs.Stages.{Good};
ghost use Rattle.wire_write.specs.Statement.{Encodes};
ghost use Rattle.wire_write.specs.Stages.{Puts, header_bytes, blob_bytes};

use wire::error::WireError;
use wire::kind::{Kind, kind_of};
use wire::layout::{ENTRY_WORDS, WORD_SIZE, values_in};
use wire_check::size::encoded_size;
use word_write::{write_bytes, write_u64, write_zeros};
use words::outcome::{NoRoom, Room};

// The four fields of a header as one word. A type is its code, here and below: so it stands in the lent table (see
// wire's `kind`).
fn header(id: u64, kind: u64, aggregate: u64, length: u64) -> u64
    ensures { bytes_of 8 result ≡ header_bytes id kind aggregate length }
{
    id % 0x1_0000
        + 0x1_0000 * (kind % 256 + 256 * (aggregate % 256 + 256 * (length % 0x1_0000_0000)))
}

// A blob's bytes and its padding.
fn write_blob(area: &[u8], offset: usize, length: usize, out: &mut [u8]) -> usize
    requires { (offset + length ≤ lib.ListN.length area.now)
        × (lib.ListN.length (blob_bytes area.now offset length) ≤ lib.ListN.length out.old) }
    ensures { Puts (blob_bytes area.now offset length) out.old out.new result }
{
    let end = offset + length;
    write_bytes(out, &area[offset..end]);
    let padding = (WORD_SIZE - length % WORD_SIZE) % WORD_SIZE;
    write_zeros(&mut out[length..], padding);
    length + padding
}

// A value's header and payload.
fn write_value(
    area: &[u8],
    id: u64,
    kind: u64,
    aggregate: u64,
    bits: u64,
    length: u64,
    out: &mut [u8],
) -> usize
    requires { (bad (lib.ListN.length area.now) id kind aggregate bits length ≡ false)
        × (lib.ListN.length (value_bytes area.now id kind aggregate bits length) ≤ lib.ListN.length out.old) }
    ensures { Puts (value_bytes area.now id kind aggregate bits length) out.old out.new
        result }
{
    write_u64(out, header(id, kind, aggregate, length));
    match kind_of(kind) {
        Kind::Null | Kind::Unknown => WORD_SIZE,
        Kind::Scalar => {
            write_u64(&mut out[WORD_SIZE..], bits);
            WORD_SIZE + WORD_SIZE
        }
        Kind::Blob => {
            let size = write_blob(area, bits as usize, length as usize, &mut out[WORD_SIZE..]);
            WORD_SIZE + size
        }
    }
}

// The value whose entry begins at the word `k`. `text_write` has this function and `write_rows` once more, over its own
// `write_value` and `write_row`: one of each for both would take these as parameters, and what they write besides.
fn write_entry(area: &[u8], values: &[u64], k: usize, out: &mut [u8]) -> usize
    requires { (k + entry_words ≤ length values.now) × (bad_entry (length area.now) values.now k ≡ false)
        × (length (entry_bytes area.now values.now k) ≤ length out.old) }
    ensures { Puts (entry_bytes area.now values.now k) out.old out.new result }
{
    write_value(
        area,
        values[k],
        values[k + 1],
        values[k + 2],
        values[k + 3],
        values[k + 4],
        out,
    )
}

// So many values, each at its own stretch of the output.
fn write_values(area: &[u8], values: &[u64], start: usize, count: usize, out: &mut [u8]) -> usize
    requires { Good area.now values.now × (start % entry_words ≡ 0)
        × (start + entry_words * count ≤ length values.now)
        × (length (values_bytes area.now values.now count start) ≤ length out.old) }
    ensures { Puts (values_bytes area.now values.now count start) out.old
        out.new result }
{
    let mut at = 0;
    let mut k = start;
    for _n in 0..count {
        at += write_entry(area, values, k, &mut out[at..]);
        k += ENTRY_WORDS;
    }
    at
}

// A row's word and its values.
fn write_row(area: &[u8], values: &[u64], count: u64, k: usize, out: &mut [u8]) -> usize
    requires { Good area.now values.now × (k % entry_words ≡ 0)
        × (k + entry_words * values_in count ≤ length values.now)
        × (length (row_bytes area.now values.now count k) ≤ length out.old) }
    ensures { Puts (row_bytes area.now values.now count k) out.old out.new result }
{
    let n = values_in(count);
    write_u64(out, count);
    let size = write_values(area, values, k, n as usize, &mut out[8..]);
    8 + size
}

// All rows, each at its own stretch of the output.
fn write_rows(area: &[u8], rows: &[u64], values: &[u64], out: &mut [u8]) -> usize
    requires { Good area.now values.now × (length values.now ≡ entry_words * total rows.now)
        × (length (rows_bytes area.now rows.now values.now 0) ≤ length out.old) }
    ensures { Puts (rows_bytes area.now rows.now values.now 0) out.old
        out.new result }
{
    let mut at = 0;
    let mut k = 0;
    for count in rows {
        at += write_row(area, values, *count, k, &mut out[at..]);
        k += ENTRY_WORDS * (values_in(*count) as usize);
    }
    at
}

// Writes the rowset of the tables over the front of the output; a refusal leaves it as it was.
pub fn encode_rowset(
    area: &[u8],
    rows: &[u64],
    values: &[u64],
    out: &mut [u8],
) -> Result<usize, WireError>
    ensures { Encodes area.now rows.now values.now out.old result
        out.new }
{
    let size = encoded_size(area, rows, values)?;
    if out.len() < size {
        return Err(WireError::NoRoom(NoRoom {
            room: Room::Output,
            needed: size as u64,
            given: out.len() as u64,
        }));
    }
    write_u64(out, rows.len() as u64);
    write_rows(area, rows, values, &mut out[8..]);
    Ok(size)
}
