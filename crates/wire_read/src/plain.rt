// The plain form: a rowset that is read, and in which each byte that reading ignores is as the writer writes it.
ghost use Rattle.std.specs.Prelude.{◌≡◌, ◌≤◌, ◌+◌, length};
ghost use Rattle.words.specs.Word.{word};
ghost use Rattle.wire.specs.Layout.{next_value, next_values, next_rows};
ghost use Rattle.wire_value.specs.ValueOf.{header_at};
ghost use Rattle.wire_read.specs.Plain.{zeros, plain_value, plain_values, plain_rows};
ghost use Rattle.wire_read.specs.Stages.{PlainTill};
ghost use Rattle.wire_read.specs.Statement.{TellsPlain};

use super::fill::read_payload;
use super::walk::walk_rowset;
use wire::kind::{BOOLEAN, Kind, kind_of};
use wire::layout::{MAX_ROWSET_SIZE, WORD_SIZE, padded, values_in};
use wire_value::value::{Header, read_header};
use word_read::read_u64;

// The word at `at`, which was looked for. Its bytes are lent alone: the compiler then knows that they are there.
fn word_at(input: &[u8], at: usize) -> u64
    requires { at + 8 ≤ length input.now }
    ensures { result ≡ word 8 input.now at }
{
    read_u64(&input[at..at + WORD_SIZE], 0)
}

// The header at `at`, the same way.
fn header_at(input: &[u8], at: usize) -> Header
    requires { at + 8 ≤ length input.now }
    ensures { result ≡ header_at input.now at }
{
    read_header(&input[at..at + WORD_SIZE], 0)
}

// Whether so many bytes are zero. No slice of these bytes: the plain form's `zeros` is told of the whole input, a count
// and a place. The bytes are counted from 0: the compiler then knows that a blob's padding has seven at most.
fn zeros(input: &[u8], count: usize, start: usize) -> bool
    requires { start + count ≤ length input.now }
    ensures { result ≡ zeros input.now count start }
{
    for past in 0..count {
        let at = start + past;
        if input[at] != 0 {
            return false;
        }
    }
    true
}

// Whether the value at `at` is plain.
fn plain_value(input: &[u8], at: usize) -> bool
    requires { next_value input.now at ≤ length input.now }
    ensures { result ≡ plain_value input.now at }
{
    let header = header_at(input, at);
    if 1 < header.aggregate {
        return false;
    }
    match kind_of(header.kind as u64) {
        Kind::Null | Kind::Unknown => header.length == 0,
        Kind::Scalar => {
            if header.length != 0 {
                return false;
            }
            if header.kind as u64 != BOOLEAN {
                return true;
            }
            word_at(input, at + WORD_SIZE) < 2
        }
        Kind::Blob => {
            let length = header.length as usize;
            zeros(
                input,
                padded(header.length) - length,
                at + WORD_SIZE + length,
            )
        }
    }
}

// Where the value at `at` ends.
fn next_value(input: &[u8], at: usize) -> usize
    requires { next_value input.now at ≤ length input.now }
    ensures { result ≡ next_value input.now at }
{
    let payload = read_payload(input, at, header_at(input, at));
    payload.next
}

// Where so many values end, if they are plain.
fn plain_values(input: &[u8], count: u64, start: usize) -> Option<usize>
    requires { next_values input.now count start ≤ length input.now }
    ensures { PlainTill (plain_values input.now count start) (next_values input.now count start) result }
{
    let mut at = start;
    for _n in 0..count {
        if !plain_value(input, at) {
            return None;
        }
        at = next_value(input, at);
    }
    Some(at)
}

// Whether the values of so many rows are plain.
fn plain_rows(input: &[u8], count: usize) -> bool
    requires { next_rows input.now count 8 ≤ length input.now }
    ensures { result ≡ plain_rows input.now count 8 }
{
    let mut at = WORD_SIZE;
    for _row in 0..count {
        let Some(next) = plain_values(input, values_in(word_at(input, at)), at + WORD_SIZE) else {
            return false;
        };
        at = next;
    }
    true
}

// Whether the input is a rowset in the plain form.
pub fn is_plain(input: &[u8]) -> bool
    ensures { TellsPlain input.now result }
{
    if MAX_ROWSET_SIZE < input.len() {
        return false;
    }
    match walk_rowset(input) {
        Err(_) => false,
        Ok(_) => plain_rows(input, read_u64(input, 0) as usize),
    }
}
