// The words of an answer, by compare/PROTOCOL.md, written to a writer. A write that fails is passed over: a comparison
// then misses the answer.
use std::io::Write;
use words::outcome::{ACCEPTED, MORE, Outcome};

pub(crate) fn text<W: Write>(to: &mut W, bytes: &[u8]) {
    let _ = to.write_all(bytes);
}

fn decimal<W: Write>(to: &mut W, value: u64) {
    let _ = write!(to, "{value}");
}

// A space, and the number.
pub(crate) fn number<W: Write>(to: &mut W, value: u64) {
    let _ = write!(to, " {value}");
}

pub(crate) fn checksum<W: Write>(to: &mut W, value: u64) {
    let _ = write!(to, " {value:016x}");
}

fn byte<W: Write>(to: &mut W, value: u8) {
    let _ = write!(to, "{value:02x}");
}

// BYTES.
pub(crate) fn bytes<W: Write>(to: &mut W, s: &[u8]) {
    text(to, b" ");
    if s.len() == 0 {
        text(to, b"-");
    }
    for value in s {
        byte(to, *value);
    }
}

// A comma behind a word; a branch of its own, so that the loop's proof has none.
fn comma<W: Write>(to: &mut W, first: bool) {
    if !first {
        text(to, b",");
    }
}

// The first `count` words of a table. Here and below the count is what an answer tells, and stays beside the table that
// it may reach past: cut by the callers, each would test for that.
pub(crate) fn words<W: Write>(to: &mut W, table: &[u64], count: usize) {
    text(to, b" ");
    if count == 0 {
        text(to, b"-");
    }
    for (i, value) in table.iter().take(count).enumerate() {
        comma(to, i == 0);
        decimal(to, *value);
    }
}

fn place<W: Write>(to: &mut W, offset: u64, length: u64) {
    if length == packet::NULL_LENGTH {
        text(to, b" null");
        return;
    }
    number(to, offset);
    text(to, b"+");
    decimal(to, length);
}

fn part<W: Write>(to: &mut W, offset: u64, length: u64, sum: u64) {
    place(to, offset, length);
    text(to, b":");
    decimal(to, sum);
}

// The first `count` entries of a part table.
pub(crate) fn parts<W: Write>(to: &mut W, table: &[u64], count: usize) {
    for entry in table.chunks_exact(packet::ENTRY_WORDS).take(count) {
        part(to, entry[0], entry[1], entry[2]);
    }
}

// Whether the words from `from` on hold what they were filled with.
pub(crate) fn kept_words<W: Write>(to: &mut W, table: &[u64], from: usize) {
    if table
        .iter()
        .skip(from)
        .any(|word| *word != 0xa5a5_a5a5_a5a5_a5a5)
    {
        text(to, b" touched");
    }
}

pub(crate) fn kept_bytes<W: Write>(to: &mut W, buffer: &[u8], from: usize) {
    if buffer.iter().skip(from).any(|byte| *byte != 0xa5) {
        text(to, b" touched");
    }
}

// How many values a refusal carries, by its number.
fn carried(refusal: u64) -> usize {
    match refusal {
        1..=3 | 10 | 12..=15 | 24 => 1,
        4..=6 | 8..=9 | 11 | 16 | 18 => 2,
        _ => 3,
    }
}

fn values<W: Write>(to: &mut W, outcome: Outcome) {
    let three = [outcome.v0, outcome.v1, outcome.v2];
    for value in three.iter().take(carried(outcome.number)) {
        number(to, *value);
    }
}

// `ok`, `more`, or a refusal: its number, what `between` says, and its values. Whether it is accepted.
fn told<W: Write, F: FnOnce(&mut W)>(to: &mut W, outcome: Outcome, between: F) -> bool
    requires { F.IsAlwaysCallable between }
{
    match outcome.kind {
        ACCEPTED => {
            text(to, b"ok");
            true
        }
        MORE => {
            text(to, b"more");
            false
        }
        _ => {
            text(to, b"refused");
            number(to, outcome.number);
            between(to);
            values(to, outcome);
            false
        }
    }
}

// The first words of an answer, a refusal's without the bytes consumed. Whether it is accepted.
pub(crate) fn accepted<W: Write>(to: &mut W, outcome: Outcome) -> bool {
    told(to, outcome, |_| ())
}

// The same with the bytes consumed.
pub(crate) fn consumed<W: Write>(to: &mut W, outcome: Outcome) -> bool {
    told(to, outcome, |to| number(to, outcome.count))
}
