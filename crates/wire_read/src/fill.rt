// The second walk: the tables are filled. The first walk has shown that the rowset lies within the input, so nothing is
// checked.
ghost use Rattle.std.specs.Prelude.{◌≡◌, ◌≤◌, ◌+◌, ◌*◌, [], length};
ghost use Rattle.std.proofs.lemmas.List.Edits.{sets};
ghost use Rattle.wire.specs.Layout.{entry_words, next_value, next_values, next_rows, value_count, entry, entries, row_words, value_words, fourth, fifth};
ghost use Rattle.wire_value.specs.ValueOf.{header_at};

use wire::kind::{Kind, bits_of, kind_of};
use wire::layout::{ENTRY_WORDS, WORD_SIZE, flag, padded, values_in};
use wire_value::value::{Header, read_header};
use word_read::read_u64;

// The last two words of a value's entry, and where the next value begins.
#[derive(Clone, Copy)]
pub(crate) struct Payload {
    pub(crate) fourth: u64,
    pub(crate) fifth: u64,
    pub(crate) next: usize,
}

// What stands behind a header that was checked.
pub(crate) fn read_payload(input: &[u8], at: usize, header: Header) -> Payload
    requires { (next_value input.now at ≤ length input.now) × (header ≡ header_at input.now at) }
    ensures { (result.fourth ≡ fourth input.now at) × (result.fifth ≡ fifth input.now at)
        × (result.next ≡ next_value input.now at) }
{
    match kind_of(header.kind as u64) {
        Kind::Null | Kind::Unknown => Payload {
            fourth: 0,
            fifth: 0,
            next: at + WORD_SIZE,
        },
        Kind::Scalar => Payload {
            fourth: bits_of(header.kind as u64, read_u64(input, at + WORD_SIZE)),
            fifth: 0,
            next: at + WORD_SIZE + WORD_SIZE,
        },
        Kind::Blob => {
            let length = header.length;
            Payload {
                fourth: (at + WORD_SIZE) as u64,
                fifth: length as u64,
                next: at + WORD_SIZE + padded(length),
            }
        }
    }
}

// The entry of the value at `at`, to the word `k` of the table on. Answers where the next value begins.
fn fill_value(input: &[u8], at: usize, values: &mut [u64], k: usize) -> usize
    requires { (next_value input.now at ≤ length input.now) × (k + entry_words ≤ length values.old) }
    ensures { (result ≡ next_value input.now at)
        × (values.new ≡ sets values.old k (entry input.now at [])) }
{
    let header = read_header(input, at);
    let payload = read_payload(input, at, header);
    values[k] = header.id as u64;
    values[k + 1] = header.kind as u64;
    values[k + 2] = flag(header.aggregate as u64);
    values[k + 3] = payload.fourth;
    values[k + 4] = payload.fifth;
    payload.next
}

// The entries of so many values, to the word `first` of the table on.
fn fill_values(input: &[u8], count: u64, start: usize, values: &mut [u64], first: usize) -> usize
    requires { (next_values input.now count start ≤ length input.now)
        × (first + entry_words * count ≤ length values.old) }
    ensures { (result ≡ next_values input.now count start)
        × (values.new ≡ sets values.old first (entries input.now count start)) }
{
    let mut at = start;
    let mut k = first;
    for _n in 0..count {
        at = fill_value(input, at, values, k);
        k += ENTRY_WORDS;
    }
    at
}

// Both tables, from their fronts.
pub(crate) fn fill_rows(input: &[u8], count: usize, rows: &mut [u64], values: &mut [u64])
    requires { (next_rows input.now count 8 ≤ length input.now) × (count ≤ length rows.old)
        × (entry_words * value_count input.now count 8 ≤ length values.old) }
    ensures { (rows.new ≡ sets rows.old 0 (row_words input.now count 8))
        × (values.new ≡ sets values.old 0 (value_words input.now count 8)) }
{
    let mut at = WORD_SIZE;
    let mut k = 0;
    for row in 0..count {
        let word = read_u64(input, at);
        let more = values_in(word);
        rows[row] = word;
        at = fill_values(input, more, at + WORD_SIZE, values, k);
        k += ENTRY_WORDS * (more as usize);
    }
}
