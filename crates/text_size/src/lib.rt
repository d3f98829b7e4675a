// How many bytes the text of a rowset has, with the checks of the rowset's writer.
#![tactic(auto)]

ghost use Rattle.std.specs.Prelude.{◌≡◌, false, ◌+◌, ◌*◌, ◌%◌, ◌<◌, ◌≤◌, ◌^◌};
ghost use lib.ListN.{length};
ghost use Rattle.wire.specs.Layout.{entry_words, values_in};
ghost use Rattle.wire.specs.Content.{row_in};
ghost use Rattle.wire_check.specs.Writing.{total, bad, bad_entry};
ghost use Rattle.wire_check.specs.Stages.{Good};
ghost use Rattle.text_form.specs.Form.{unit, units, head, row_text};
ghost use Rattle.text_size.specs.Statement.{SizesText};
ghost use Rattle.text_size.specs.Stages.{value_text, entry_text, values_text, rows_text, TextFits};

use numerals::decimal_size;
use text_spell::{WORD_DIGITS, is_escaped};
use wire::error::WireError;
use wire::kind::{Kind, kind_of};
use wire::layout::{ENTRY_WORDS, NULL_ROW_MARKER, flag, values_in};
use wire_check::size::encoded_size;

// A blob's byte: itself, or a percent sign and two digits.
fn unit_size(byte: u8) -> usize
    ensures { result ≡ length (unit byte) }
{
    if is_escaped(byte) { 3 } else { 1 }
}

fn units_size(bytes: &[u8]) -> usize
    requires { length (units bytes.now) < 2 ^ 64 }
    ensures { result ≡ length (units bytes.now) }
{
    let mut size: usize = 0;
    for byte in bytes {
        size += unit_size(*byte);
    }
    size
}

// Id, colon, the aggregate's sign and the type's letter.
fn head_size(id: u64, aggregate: u64) -> usize
    ensures { result ≡ length (head id aggregate) + 1 }
{
    decimal_size(id) + 2 + flag(aggregate) as usize
}

// The type is its code: so it stands in the lent table (see wire's `kind`).
fn value_size(area: &[u8], id: u64, kind: u64, aggregate: u64, bits: u64, length: u64) -> usize
    requires { (bad (lib.ListN.length area.now) id kind aggregate bits length ≡ false)
        × (lib.ListN.length (value_text area.now id kind aggregate bits length) < 2 ^ 64) }
    ensures { result ≡ lib.ListN.length (value_text area.now id kind aggregate bits length) }
{
    let start = head_size(id, aggregate);
    match kind_of(kind) {
        Kind::Null | Kind::Unknown => start,
        Kind::Scalar => start + WORD_DIGITS,
        Kind::Blob => {
            let offset = bits as usize;
            let end = offset + length as usize;
            start + units_size(&area[offset..end])
        }
    }
}

fn entry_size(area: &[u8], values: &[u64], k: usize) -> usize
    requires { (k + entry_words ≤ length values.now) × (bad_entry (length area.now) values.now k ≡ false)
        × (length (entry_text area.now values.now k) < 2 ^ 64) }
    ensures { result ≡ length (entry_text area.now values.now k) }
{
    value_size(
        area,
        values[k],
        values[k + 1],
        values[k + 2],
        values[k + 3],
        values[k + 4],
    )
}

// So many values, a byte behind each.
fn values_size(area: &[u8], values: &[u64], start: usize, count: usize) -> usize
    requires { Good area.now values.now × (start % entry_words ≡ 0)
        × (start + entry_words * count ≤ length values.now)
        × (length (values_text area.now values.now count start) < 2 ^ 64) }
    ensures { result ≡ length (values_text area.now values.now count start) }
{
    let mut size: usize = 0;
    let mut k = start;
    for _n in 0..count {
        size += entry_size(area, values, k) + 1;
        k += ENTRY_WORDS;
    }
    size
}

// One line: that of a null row, an empty one, or the values of a row.
fn row_size(area: &[u8], values: &[u64], count: u64, k: usize) -> usize
    requires { Good area.now values.now × (k % entry_words ≡ 0)
        × (k + entry_words * values_in count ≤ length values.now)
        × (length (row_text (row_in area.now values.now count k)) < 2 ^ 64) }
    ensures { result ≡ length (row_text (row_in area.now values.now count k)) }
{
    match count {
        NULL_ROW_MARKER => 2,
        0 => 1,
        _ => values_size(area, values, k, count as usize),
    }
}

fn rows_size(area: &[u8], rows: &[u64], values: &[u64]) -> usize
    requires { Good area.now values.now × (length values.now ≡ entry_words * total rows.now)
        × (length (rows_text area.now rows.now values.now 0) < 2 ^ 64) }
    ensures { result ≡ length (rows_text area.now rows.now values.now 0) }
{
    let mut size: usize = 0;
    let mut k = 0;
    for count in rows {
        size += row_size(area, values, *count, k);
        k += ENTRY_WORDS * (values_in(*count) as usize);
    }
    size
}

// How many bytes `write_text` writes, with the checks that the rowset's writer makes.
pub fn text_size(area: &[u8], rows: &[u64], values: &[u64]) -> Result<usize, WireError>
    ensures sizes_text { SizesText area.now rows.now values.now result }
    ensures text_fits { TextFits area.now rows.now values.now result }
{
    encoded_size(area, rows, values)?;
    Ok(rows_size(area, rows, values))
}
