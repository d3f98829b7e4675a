// The cases of rowsets.
use crate::packets::say_written;
use crate::read::{
    buffer, bytes_into, cut, entries_words, front, number, output, table, values_table, word,
    words_into,
};
use crate::run::truth;
use crate::say;
use face_rowsets::{
    cablefinch_decode_rowset, cablefinch_encode_rowset, cablefinch_is_plain, cablefinch_read_value,
    cablefinch_rowset_size,
};
use std::io::Write;
use wire::layout::ENTRY_WORDS;
use words::outcome::Outcome;

fn say_rowset<W: Write>(to: &mut W, rows: &[u64], values: &[u64], outcome: Outcome) {
    if !say::accepted(to, outcome) {
        say::kept_words(to, rows, 0);
        say::kept_words(to, values, 0);
        return;
    }
    let row_words = outcome.v0 as usize;
    let value_words = entries_words(outcome.v1, ENTRY_WORDS);
    say::number(to, outcome.v0);
    say::number(to, outcome.v1);
    say::words(to, rows, row_words);
    say::words(to, values, value_words);
    say::kept_words(to, rows, row_words);
    say::kept_words(to, values, value_words);
}

// Tables of so many words, or all of a table where it is shorter: no case of the list fills that.
fn decode_into<W: Write>(
    to: &mut W,
    input: &[u8],
    rows: &mut [u64],
    row_words: usize,
    values: &mut [u64],
    value_words: usize,
) {
    let row_count = row_words.min(rows.len());
    let value_count = value_words.min(values.len());
    let outcome = cablefinch_decode_rowset(
        input,
        &mut rows[..row_count],
        &mut values[..value_count],
    );
    say_rowset(to, &rows[..row_count], &values[..value_count], outcome);
}

fn rowset<W: Write>(to: &mut W, line: &[u8]) {
    let mut space = buffer();
    let mut rows = table();
    let mut values = values_table();
    let count = bytes_into(&mut space, word(line, 3));
    let row_words = number(word(line, 1)) as usize;
    let value_words = entries_words(number(word(line, 2)), ENTRY_WORDS);
    decode_into(
        to,
        cut(&space, 0, count),
        &mut rows,
        row_words,
        &mut values,
        value_words,
    );
}

fn rowset_size<W: Write>(to: &mut W, line: &[u8]) {
    let mut space = buffer();
    let mut rows = table();
    let mut values = values_table();
    let count = bytes_into(&mut space, word(line, 1));
    let row_words = words_into(&mut rows, word(line, 2));
    let value_words = words_into(&mut values, word(line, 3));
    let area = cut(&space, 0, count);
    let outcome = cablefinch_rowset_size(
        area,
        front(&rows, row_words),
        front(&values, value_words),
    );
    if say::accepted(to, outcome) {
        say::number(to, outcome.count);
    }
}

fn encode_into<W: Write>(
    to: &mut W,
    area: &[u8],
    rows: &[u64],
    values: &[u64],
    out: &mut [u8],
    room: usize,
) {
    let lent = room.min(out.len());
    let outcome = cablefinch_encode_rowset(area, rows, values, &mut out[..lent]);
    say_written(to, &out[..lent], outcome);
}

fn rowset_write<W: Write>(to: &mut W, line: &[u8]) {
    let mut space = buffer();
    let mut rows = table();
    let mut values = values_table();
    let mut out = output();
    let room = number(word(line, 1)) as usize;
    let count = bytes_into(&mut space, word(line, 2));
    let row_words = words_into(&mut rows, word(line, 3));
    let value_words = words_into(&mut values, word(line, 4));
    let area = cut(&space, 0, count);
    encode_into(
        to,
        area,
        front(&rows, row_words),
        front(&values, value_words),
        &mut out,
        room,
    );
}

fn value<W: Write>(to: &mut W, line: &[u8]) {
    let mut space = buffer();
    let count = bytes_into(&mut space, word(line, 2));
    let at = number(word(line, 1)) as usize;
    let outcome = cablefinch_read_value(cut(&space, 0, count), at);
    if say::accepted(to, outcome) {
        say::number(to, outcome.v0);
        say::number(to, outcome.v1);
        say::number(to, outcome.v2);
        say::number(to, outcome.v3);
        say::number(to, outcome.v4);
        say::number(to, outcome.count);
    }
}

fn plain<W: Write>(to: &mut W, line: &[u8]) {
    let mut space = buffer();
    let count = bytes_into(&mut space, word(line, 1));
    say::text(to, b"ok");
    truth(to, cablefinch_is_plain(cut(&space, 0, count)));
}

// Whether the case is one of these.
pub(crate) fn answered<W: Write>(to: &mut W, line: &[u8], kind: &[u8]) -> bool {
    match kind {
        b"rowset" => rowset(to, line),
        b"rowset-write" => rowset_write(to, line),
        b"rowset-size" => rowset_size(to, line),
        b"value" => value(to, line),
        b"plain" => plain(to, line),
        _ => return false,
    }
    true
}
