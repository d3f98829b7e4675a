// A rowset's size, with the checks of the writer, after the Rust's `validate_and_measure`.
ghost use Rattle.std.specs.Prelude.{◌≡◌, ◌+◌, ◌*◌, ◌≤◌, length};
ghost use Rattle.words.specs.Decide.{decide};
ghost use Rattle.words.specs.Paper.{Tells};
ghost use Rattle.wire.specs.Layout.{max_size, entry_words, values_in};
ghost use Rattle.wire_check.specs.Writing.{total, capped, value_order, size_of, values_size, row_size, rowset_size};
ghost use Rattle.wire_check.specs.Stages.{fit_values, fit_row, fit_rows};
ghost use Rattle.wire_check.specs.Stages.{Follows, Adds, Fits};
ghost use Rattle.wire_check.specs.Paper.{paper_measured};
ghost use Rattle.wire_check.specs.Statement.{Measures};

use super::table::check_tables;
use wire::error::WireError;
use wire::kind::{Kind, kind_of};
use wire::layout::{
    ENTRY_WORDS, MAX_ROWSET_SIZE, MAX_VALUE_LENGTH, MAX_VALUES_PER_ROW, WORD_SIZE, padded,
    values_in,
};
use words::outcome::{Outcome, taken};

// One more element: 13 where it crosses the limit.
fn add_to_rowset_size(size: usize, additional: usize) -> Result<usize, WireError>
    requires { (size ≤ max_size) × (additional ≤ max_size) }
    ensures { Adds size additional result }
{
    let sum = size + additional;
    if MAX_ROWSET_SIZE < sum {
        return Err(WireError::RowsetTooLarge { size: sum });
    }
    Ok(sum)
}

// At most 2^32-1, for 12.
fn cap(length: u64) -> u32
    ensures { result ≡ capped length }
{
    if 0xffff_ffff < length {
        return 0xffff_ffff;
    }
    length as u32
}

// 12, then 13. A type that is not known counts as one without payload. It is its code: so it stands in the lent table
// (see wire's `kind`).
fn measure_value(kind: u64, length: u64, size: usize) -> Result<usize, WireError>
    requires { size ≤ max_size }
    ensures { Follows (decide (value_order kind length size)) (size + size_of kind length) result }
{
    match kind_of(kind) {
        Kind::Null | Kind::Unknown => add_to_rowset_size(size, WORD_SIZE),
        Kind::Scalar => add_to_rowset_size(size, WORD_SIZE + WORD_SIZE),
        Kind::Blob => {
            if (MAX_VALUE_LENGTH as u64) < length {
                return Err(WireError::ValueTooLong {
                    length: cap(length),
                });
            }
            add_to_rowset_size(size, WORD_SIZE + padded(length as u32))
        }
    }
}

// So many values, each with its 12 and 13.
fn measure_values(
    values: &[u64],
    start: usize,
    count: usize,
    before: usize,
) -> Result<usize, WireError>
    requires { (start + entry_words * count ≤ length values.now) × (before ≤ max_size) }
    ensures { Follows (fit_values values.now count start before)
        (before + values_size values.now count start) result }
{
    let mut size = before;
    let mut k = start;
    for _n in 0..count {
        size = measure_value(values[k + 1], values[k + 4], size)?;
        k += ENTRY_WORDS;
    }
    Ok(size)
}

// 13 for the row's word, 11, then its values.
fn measure_row(
    values: &[u64],
    count: u64,
    row: usize,
    k: usize,
    before: usize,
) -> Result<usize, WireError>
    requires { (k + entry_words * values_in count ≤ length values.now) × (before ≤ max_size) }
    ensures { Follows (fit_row values.now count row k before)
        (before + row_size values.now count k) result }
{
    let size = add_to_rowset_size(before, 8)?;
    let n = values_in(count);
    if MAX_VALUES_PER_ROW < n {
        return Err(WireError::TooManyValues { row, count });
    }
    measure_values(values, k, n as usize, size)
}

// All rows, behind the row count.
fn measure_rows(rows: &[u64], values: &[u64]) -> Result<usize, WireError>
    requires { length values.now ≡ entry_words * total rows.now }
    ensures { Follows (fit_rows rows.now values.now 0 0 8)
        (rowset_size rows.now values.now) result }
{
    let mut size = 8;
    let mut k = 0;
    for (i, count) in rows.iter().enumerate() {
        size = measure_row(values, *count, i, k, size)?;
        k += ENTRY_WORDS * (values_in(*count) as usize);
    }
    Ok(size)
}

// How many bytes `encode_rowset` writes, with its checks of the tables.
pub fn encoded_size(area: &[u8], rows: &[u64], values: &[u64]) -> Result<usize, WireError>
    ensures measures { Measures area.now rows.now values.now result }
    ensures fits { Fits area.now rows.now values.now result }
{
    check_tables(area, rows, values)?;
    measure_rows(rows, values)
}

// The size, or how many bytes were written, or the refusal, as document 01's number and values.
// (No `From`: both `Outcome` and `Result` are of other crates.)
pub fn outcome(answer: Result<usize, WireError>) -> Outcome
    ensures { Tells (paper_measured answer) result }
{
    match answer {
        Ok(size) => taken(size as u64, 0, 0, 0),
        Err(error) => Outcome::from(error),
    }
}
