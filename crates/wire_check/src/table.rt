// The checks of the lent tables: 18 by its rules, then 10.
ghost use Rattle.std.specs.Prelude.{◌≡◌, ◌+◌, ◌≤◌, length};
ghost use Rattle.words.specs.Decide.{◌=?◌};
ghost use Rattle.wire.specs.Layout.{entry_words};
ghost use Rattle.wire_check.specs.Writing.{total, bad, bad_entry};
ghost use Rattle.wire_check.specs.Statement.{FindsBad};
ghost use Rattle.wire_check.specs.Stages.{ChecksTables};

use wire::error::WireError;
use wire::kind::{BOOLEAN, Kind, kind_of};
use wire::layout::{ENTRY_WORDS, MAX_ROWS_PER_ROWSET, values_in};

// Whether the rows have so many values. What is left is counted down, so that no sum can wrap.
fn sums_to(rows: &[u64], entries: usize) -> bool
    ensures { result ≡ (total rows.now =? entries) }
{
    let mut left = entries as u64;
    for row in rows {
        let count = values_in(*row);
        if left < count {
            return false;
        }
        left -= count;
    }
    left == 0
}

// Rule 3 of one entry, in its order. The type is its code, and is looked up here: any number may stand in a lent table
// (see wire's `kind`).
fn bad_value(size: u64, id: u64, kind: u64, aggregate: u64, bits: u64, length: u64) -> bool
    ensures { result ≡ bad size id kind aggregate bits length }
{
    if 65535 < id {
        return true;
    }
    if 1 < aggregate {
        return true;
    }
    match kind_of(kind) {
        Kind::Unknown => true,
        Kind::Null => {
            if bits != 0 {
                return true;
            }
            length != 0
        }
        Kind::Scalar => {
            if length != 0 {
                return true;
            }
            if kind != BOOLEAN {
                return false;
            }
            1 < bits
        }
        Kind::Blob => {
            if size < length {
                return true;
            }
            size - length < bits
        }
    }
}

// Rule 3 of the entry that begins at the word `k`.
fn bad_entry(size: usize, values: &[u64], k: usize) -> bool
    requires { k + entry_words ≤ length values.now }
    ensures { result ≡ bad_entry size values.now k }
{
    bad_value(
        size as u64,
        values[k],
        values[k + 1],
        values[k + 2],
        values[k + 3],
        values[k + 4],
    )
}

// The first bad entry, else the number of entries.
pub fn first_bad(area: &[u8], values: &[u64]) -> usize
    ensures { FindsBad area.now values.now result }
{
    let n = values.len() / ENTRY_WORDS;
    for i in 0..n {
        if bad_entry(area.len(), values, ENTRY_WORDS * i) {
            return i;
        }
    }
    n
}

// 18 by its rules, then 10.
pub(crate) fn check_tables(area: &[u8], rows: &[u64], values: &[u64]) -> Result<(), WireError>
    ensures { ChecksTables area.now rows.now values.now result }
{
    let entries = values.len() / ENTRY_WORDS;
    if values.len() % ENTRY_WORDS != 0 {
        return Err(WireError::BadTable {
            rule: 1,
            position: entries,
        });
    }
    if !sums_to(rows, entries) {
        return Err(WireError::BadTable {
            rule: 2,
            position: rows.len(),
        });
    }
    let bad = first_bad(area, values);
    if bad < entries {
        return Err(WireError::BadTable {
            rule: 3,
            position: bad,
        });
    }
    if MAX_ROWS_PER_ROWSET < rows.len() as u64 {
        return Err(WireError::TooManyRows {
            count: rows.len() as u64,
        });
    }
    Ok(())
}
