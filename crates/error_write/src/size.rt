// How many bytes errors take. The entries are taken from the last to the first, with a sum for each depth, so that
// each is seen once. Sums stop at 2^64 - 1. Area, errors and attributes stay three parameters, here and in
// `encode_error`: so the exported functions lend them, the C interface.
ghost use Rattle.std.specs.Prelude.{◌≡◌, ◌+◌, ◌*◌, ◌<◌, ◌≤◌, length};
ghost use Rattle.error_tree.specs.Reading.{error_entry, attribute_entry};
ghost use Rattle.error_table.specs.Table.{errors_in};
ghost use Rattle.error_table.specs.Statement.{Sound};
ghost use Rattle.error_write.specs.Written.{all_rows, error_bytes};
ghost use Rattle.error_write.specs.Writing.{capped, needed};
ghost use Rattle.error_write.specs.Statement.{Measures};
ghost use Rattle.error_write.specs.Stages.{Covers, delimited_size, attribute_size, row_size, entries_size};
ghost use Rattle.error_write.specs.Stages.{dictionary_size, own_size, Sizes};

use super::rows::{first_row, is_sorted, row_before};
use error_table::table::check_tables;
use error_tree::refusal::ErrorRefusal;
use error_tree::table::{ATTRIBUTE_ENTRY, ERROR_ENTRY};
use varint::write::varint_size;

// The most that a size says.
const MOST_BYTES: u64 = 0xffff_ffff_ffff_ffff;

// A sum for each depth up to one more than the deepest, 16.
pub(crate) const SUMS: usize = 18;

// A sum, at most `MOST_BYTES`.
pub(crate) fn add_capped(a: u64, b: u64) -> u64
    ensures { result ≡ capped (a + b) }
{
    if MOST_BYTES - a < b {
        return MOST_BYTES;
    }
    a + b
}

// So many bytes as a field: with their tag and length.
pub(crate) fn delimited_size(n: u64) -> u64
    ensures { result ≡ capped (delimited_size n) }
{
    add_capped(1 + (varint_size(n) as u64), n)
}

// What the attribute number `k` holds: its key and its value.
pub(crate) fn attribute_size(attributes: &[u64], k: usize) -> u64
    requires { attribute_entry * (k + 1) ≤ length attributes.now }
    ensures { result ≡ capped (attribute_size attributes.now k) }
{
    let key = delimited_size(attributes[ATTRIBUTE_ENTRY * k + 2]);
    add_capped(key, delimited_size(attributes[ATTRIBUTE_ENTRY * k + 4]))
}

// What the row `k` adds to the dictionary of the error number `i`: nothing where it is another's.
fn row_size(attributes: &[u64], i: usize, k: usize) -> u64
    requires { attribute_entry * (k + 1) ≤ length attributes.now }
    ensures { result ≡ capped (row_size attributes.now i k) }
{
    if attributes[ATTRIBUTE_ENTRY * k] != (i as u64) {
        return 0;
    }
    delimited_size(attribute_size(attributes, k))
}

// The attributes of the error number `i`, which stand in the rows from..till.
pub(crate) fn entries_size(attributes: &[u64], i: usize, from: usize, till: usize) -> u64
    requires { Covers attributes.now i from till }
    ensures { result ≡ capped (entries_size attributes.now (all_rows attributes.now i)) }
{
    let mut size: u64 = 0;
    for k in from..till {
        size = add_capped(size, row_size(attributes, i, k));
    }
    size
}

// One dictionary if any.
fn dictionary_size(entries: u64) -> u64
    ensures { result ≡ capped (dictionary_size entries) }
{
    if entries == 0 {
        return 0;
    }
    delimited_size(entries)
}

// The error number `i` without its inner errors, its attributes having so many bytes.
pub(crate) fn own_size(errors: &[u64], i: usize, entries: u64) -> u64
    requires { error_entry * (i + 1) ≤ length errors.now }
    ensures { result ≡ capped (own_size errors.now i entries) }
{
    let code = 1 + (varint_size(errors[ERROR_ENTRY * i]) as u64);
    let head = add_capped(code, delimited_size(errors[ERROR_ENTRY * i + 3]));
    add_capped(head, dictionary_size(entries))
}

// The whole message's bytes, at most `MOST_BYTES`. `sums[d]` is the size of the inner errors of depth d that begin at
// the entry number `i` or behind it and belong to an error before it.
fn measure(area: &[u8], errors: &[u64], attributes: &[u64]) -> u64
    requires { Sound area.now errors.now attributes.now }
    ensures { result ≡ needed area.now errors.now attributes.now }
{
    let sorted = is_sorted(attributes);
    let mut till = attributes.len() / ATTRIBUTE_ENTRY;
    let mut sums: [u64; SUMS] = [0; SUMS];
    for i in (1..errors.len() / ERROR_ENTRY).rev() {
        let from = first_row(attributes, sorted, i, till);
        let own = own_size(errors, i, entries_size(attributes, i, from, till));
        till = row_before(sorted, from, till);
        let depth = errors[ERROR_ENTRY * i + 1] as usize;
        let body = add_capped(own, sums[depth + 1]);
        let sum = add_capped(delimited_size(body), sums[depth]);
        sums[depth + 1] = 0;
        sums[depth] = sum;
    }
    let from = first_row(attributes, sorted, 0, till);
    let own = own_size(errors, 0, entries_size(attributes, 0, from, till));
    add_capped(own, sums[2])
}

// The same behind the checks of the tables. It says besides that they are sound, which the writer asks for.
pub(crate) fn size_checked(
    area: &[u8],
    errors: &[u64],
    attributes: &[u64],
) -> Result<u64, ErrorRefusal>
    ensures { Sizes area.now errors.now attributes.now result }
{
    check_tables(area, errors, attributes)?;
    Ok(measure(area, errors, attributes))
}

// How many bytes `encode_error` writes, with its checks of the tables.
pub fn error_size(area: &[u8], errors: &[u64], attributes: &[u64]) -> Result<u64, ErrorRefusal>
    ensures { Measures area.now errors.now attributes.now result }
{
    size_checked(area, errors, attributes)
}
