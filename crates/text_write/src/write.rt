// A rowset's text, each row's and each value's at its own stretch of the output.
ghost use Rattle.std.specs.Prelude.{◌≡◌, false, [], ◌∷◌, ◌++◌, ◌+◌, ◌*◌, ◌%◌, ◌<◌, ◌≤◌};
ghost use lib.ListN.{length};
ghost use Rattle.wire.specs.Layout.{entry_words, values_in};
ghost use Rattle.wire.specs.Content.{row_in};
ghost use Rattle.wire_check.specs.Writing.{total, bad, bad_entry};
ghost use Rattle.wire_check.specs.Stages.{Good};
ghost use Rattle.wire_write.specs.Stages.{Puts};
ghost use Rattle.text_form.specs.Form.{unit, units, hexes, head, row_text};
ghost use Rattle.text_write.specs.Statement.{WritesText};
ghost use Rattle.text_size.specs.Stages.{value_text, entry_text, values_text, rows_text};

use super::spell::{CAPITAL, SMALL, hex_digit, separator};
use numerals::write_decimal;
use text_size::text_size;
use text_spell::{WORD_DIGITS, is_escaped, letter};
use wire::error::WireError;
use wire::kind::{Kind, kind_of};
use wire::layout::{ENTRY_WORDS, NULL_ROW_MARKER, values_in};
use words::outcome::{NoRoom, Room};

// Id, colon, the aggregate's sign and the type's letter.
fn write_head(id: u64, aggregate: u64, mark: u8, out: &mut [u8]) -> usize
    requires { length (head id aggregate) < length out.old }
    ensures { Puts (head id aggregate ++ mark ∷ []) out.old out.new result }
{
    let colon = write_decimal(out, id);
    out[colon] = b':';
    if aggregate == 0 {
        out[colon + 1] = mark;
        return colon + 2;
    }
    out[colon + 1] = b'!';
    out[colon + 2] = mark;
    colon + 3
}

// A scalar's word, the last digit first.
fn write_word(word: u64, out: &mut [u8]) -> usize
    requires { 16 ≤ length out.old }
    ensures { Puts (hexes 16 word) out.old out.new result }
{
    let mut rest = word;
    for at in (0..WORD_DIGITS).rev() {
        out[at] = hex_digit::<SMALL>((rest % 16) as u8);
        rest /= 16;
    }
    WORD_DIGITS
}

// A blob's byte: itself, or a percent sign and two digits.
fn write_unit(byte: u8, out: &mut [u8]) -> usize
    requires { length (unit byte) ≤ length out.old }
    ensures { Puts (unit byte) out.old out.new result }
{
    if is_escaped(byte) {
        out[0] = b'%';
        out[1] = hex_digit::<CAPITAL>(byte / 16);
        out[2] = hex_digit::<CAPITAL>(byte % 16);
        return 3;
    }
    out[0] = byte;
    1
}

fn write_units(bytes: &[u8], out: &mut [u8]) -> usize
    requires { length (units bytes.now) ≤ length out.old }
    ensures { Puts (units bytes.now) out.old out.new result }
{
    let mut at = 0;
    for byte in bytes {
        at += write_unit(*byte, &mut out[at..]);
    }
    at
}

// A value: its head, and what its kind has behind it. The type is its code: so it stands in the lent table (see wire's
// `kind`).
fn write_value(
    area: &[u8],
    id: u64,
    kind: u64,
    aggregate: u64,
    bits: u64,
    length: u64,
    out: &mut [u8],
) -> usize
    requires { (bad (lib.ListN.length area.now) id kind aggregate bits length ≡ false)
        × (lib.ListN.length (value_text area.now id kind aggregate bits length) ≤ lib.ListN.length out.old) }
    ensures { Puts (value_text area.now id kind aggregate bits length) out.old out.new result }
{
    let at = write_head(id, aggregate, letter(kind), out);
    match kind_of(kind) {
        Kind::Null | Kind::Unknown => at,
        Kind::Scalar => {
            let size = write_word(bits, &mut out[at..]);
            at + size
        }
        Kind::Blob => {
            let offset = bits as usize;
            let end = offset + length as usize;
            let size = write_units(&area[offset..end], &mut out[at..]);
            at + size
        }
    }
}

// The value whose entry begins at the word `k`. `wire_write` has a twin of this function and one of `write_rows`, and
// says why.
fn write_entry(area: &[u8], values: &[u64], k: usize, out: &mut [u8]) -> usize
    requires { (k + entry_words ≤ length values.now) × (bad_entry (length area.now) values.now k ≡ false)
        × (length (entry_text area.now values.now k) ≤ length out.old) }
    ensures { Puts (entry_text area.now values.now k) out.old out.new result }
{
    write_value(
        area,
        values[k],
        values[k + 1],
        values[k + 2],
        values[k + 3],
        values[k + 4],
        out,
    )
}

// So many values, a tab behind each, and behind the last a line feed.
fn write_values(area: &[u8], values: &[u64], start: usize, count: usize, out: &mut [u8]) -> usize
    requires { Good area.now values.now × (start % entry_words ≡ 0)
        × (start + entry_words * count ≤ length values.now)
        × (length (values_text area.now values.now count start) ≤ length out.old) }
    ensures { Puts (values_text area.now values.now count start) out.old
        out.new result }
{
    let mut at = 0;
    let mut k = start;
    for n in 0..count {
        at += write_entry(area, values, k, &mut out[at..]);
        out[at] = separator(count - n);
        at += 1;
        k += ENTRY_WORDS;
    }
    at
}

// One line: that of a null row, an empty one, or the values of a row.
fn write_row(area: &[u8], values: &[u64], count: u64, k: usize, out: &mut [u8]) -> usize
    requires { Good area.now values.now × (k % entry_words ≡ 0)
        × (k + entry_words * values_in count ≤ length values.now)
        × (length (row_text (row_in area.now values.now count k)) ≤ length out.old) }
    ensures { Puts (row_text (row_in area.now values.now count k)) out.old
        out.new result }
{
    match count {
        NULL_ROW_MARKER => {
            out[0] = b'#';
            out[1] = b'\n';
            2
        }
        0 => {
            out[0] = b'\n';
            1
        }
        _ => write_values(area, values, k, count as usize, out),
    }
}

// All rows, each at its own stretch of the output.
fn write_rows(area: &[u8], rows: &[u64], values: &[u64], out: &mut [u8]) -> usize
    requires { Good area.now values.now × (length values.now ≡ entry_words * total rows.now)
        × (length (rows_text area.now rows.now values.now 0) ≤ length out.old) }
    ensures { Puts (rows_text area.now rows.now values.now 0) out.old
        out.new result }
{
    let mut at = 0;
    let mut k = 0;
    for count in rows {
        at += write_row(area, values, *count, k, &mut out[at..]);
        k += ENTRY_WORDS * (values_in(*count) as usize);
    }
    at
}

// Writes the text of the tables' rows over the front of the output; a refusal leaves it as it was.
pub fn write_text(
    area: &[u8],
    rows: &[u64],
    values: &[u64],
    out: &mut [u8],
) -> Result<usize, WireError>
    ensures { WritesText area.now rows.now values.now out.old result
        out.new }
{
    let size = text_size(area, rows, values)?;
    if out.len() < size {
        return Err(WireError::NoRoom(NoRoom {
            room: Room::Output,
            needed: size as u64,
            given: out.len() as u64,
        }));
    }
    write_rows(area, rows, values, out);
    Ok(size)
}
