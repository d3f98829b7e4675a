// The first field or padding byte of a value that breaks the plain form (document 02, A2).
ghost use Rattle.std.specs.Prelude.{◌≡◌, ◌≤◌, ◌+◌, false, length};
ghost use Rattle.wire.specs.Layout.{next_value, blob, type_at};
ghost use Rattle.wire_value.specs.ValueOf.{header_at};
ghost use Rattle.why_rowset.specs.Plain.{padding_lines, plain_value_lines};
ghost use Rattle.why_rowset.specs.Stages.{Finds, FindsWords, Keeps};

use finding::{Field, Finding, Wanted};
use wire::kind::{BOOLEAN, Kind, kind_of};
use wire::layout::{WORD_SIZE, padded};
use wire_value::value::Header;
use word_read::read_u64;

// Where the aggregate byte and the length word stand in a value.
const AGGREGATE_AT: usize = 3;

const LENGTH_AT: usize = 4;

// The first of so many padding bytes that is not zero. They are counted from 0: the compiler then knows that a blob's
// padding has seven at most.
fn padding(input: &[u8], start: usize, count: usize) -> Finding
    requires { start + count ≤ length input.now }
    ensures { Finds (padding_lines input.now count start) result }
{
    for past in 0..count {
        let at = start + past;
        let byte = input[at];
        if byte != 0 {
            return Finding::NotPlain {
                field: Field::Padding,
                offset: at as u64,
                found: byte as u64,
                wanted: Wanted::Number(0),
            };
        }
    }
    Finding::Fine
}

// The length word of a value that is no blob, and a boolean's word. `input`, `at` and `header` go from function to
// function here and in `value`, and each requires that `header` stands at `at`: findings tell places in the whole
// input, and the header is read once.
fn words(input: &[u8], at: usize, header: Header) -> Finding
    requires { (header ≡ header_at input.now at) × (blob (type_at input.now at) ≡ false)
        × (at + 8 ≤ length input.now) }
    ensures { FindsWords input.now at result }
{
    if header.length != 0 {
        return Finding::NotPlain {
            field: Field::Length,
            offset: (at + LENGTH_AT) as u64,
            found: header.length as u64,
            wanted: Wanted::Number(0),
        };
    }
    if header.kind as u64 != BOOLEAN {
        return Finding::Fine;
    }
    let word = read_u64(input, at + WORD_SIZE);
    if 1 < word {
        return Finding::NotPlain {
            field: Field::Word,
            offset: (at + WORD_SIZE) as u64,
            found: word,
            wanted: Wanted::Number(1),
        };
    }
    Finding::Fine
}

// What breaks the plain form first in the value at `at`, which lies within the input.
fn value(input: &[u8], at: usize, header: Header) -> Finding
    requires { (header ≡ header_at input.now at) × (next_value input.now at ≤ length input.now) }
    ensures { Finds (plain_value_lines input.now at) result }
{
    if 1 < header.aggregate {
        return Finding::NotPlain {
            field: Field::Aggregate,
            offset: (at + AGGREGATE_AT) as u64,
            found: header.aggregate as u64,
            wanted: Wanted::Number(1),
        };
    }
    match kind_of(header.kind as u64) {
        Kind::Null | Kind::Scalar | Kind::Unknown => words(input, at, header),
        Kind::Blob => {
            let length = header.length as usize;
            padding(
                input,
                at + WORD_SIZE + length,
                padded(header.length) - length,
            )
        }
    }
}

// What broke the plain form before, or breaks it first in this value.
pub(crate) fn kept(input: &[u8], at: usize, header: Header, before: Finding) -> Finding
    requires { (header ≡ header_at input.now at) × (next_value input.now at ≤ length input.now) }
    ensures { Keeps (plain_value_lines input.now at) before result }
{
    match before {
        Finding::Fine => value(input, at, header),
        _ => before,
    }
}
