// The cases of packets, in archive mode and, by the names that end in `-live`, in live mode.
use crate::read::{
    buffer, bytes_into, cut, entries_words, front, number, output, table, word, words_into,
};
use crate::run::{id_of, say_id, truth};
use crate::say;
use face_packet_write::cablefinch_encode;
use face_packets::{cablefinch_decode, cablefinch_decode_with, cablefinch_part_checksum};
use face_parts::{
    cablefinch_contains, cablefinch_encoded_size, cablefinch_part, cablefinch_validate,
};
use packet::ENTRY_WORDS;
use std::io::Write;
use words::outcome::Outcome;

// The modes by the numbers of the exported functions: the C interface, which takes any number, here and below. Writer,
// mode and line stay three parameters: each case takes them once, and a struct would be taken apart there.
const ARCHIVE: u64 = 0;

const LIVE: u64 = 1;

fn say_packet<W: Write>(to: &mut W, parts: &[u64], outcome: Outcome) {
    if !say::consumed(to, outcome) {
        say::kept_words(to, parts, 0);
        return;
    }
    say::number(to, outcome.count);
    say::number(to, outcome.v0);
    say::number(to, outcome.v1);
    say_id(to, outcome.v2, outcome.v3, outcome.v4, outcome.v5);
    say::number(to, outcome.v6);
    say::parts(to, parts, outcome.v6 as usize);
    say::kept_words(to, parts, entries_words(outcome.v6, ENTRY_WORDS));
}

// Part tables of so many words, or all of the table where it is shorter: no case of the list fills that.

fn decode_with_into<W: Write>(
    to: &mut W,
    mode: u64,
    input: &[u8],
    limit: u64,
    ceiling: u32,
    parts: &mut [u64],
    words: usize,
) {
    let lent = words.min(parts.len());
    let outcome = cablefinch_decode_with(mode, input, limit, ceiling, &mut parts[..lent]);
    say_packet(to, &parts[..lent], outcome);
}

fn decode_into<W: Write>(
    to: &mut W,
    mode: u64,
    input: &[u8],
    limit: u64,
    parts: &mut [u64],
    words: usize,
) {
    let lent = words.min(parts.len());
    let outcome = cablefinch_decode(mode, input, limit, &mut parts[..lent]);
    say_packet(to, &parts[..lent], outcome);
}

fn packet<W: Write>(to: &mut W, mode: u64, line: &[u8]) {
    let mut space = buffer();
    let mut parts = table();
    let count = bytes_into(&mut space, word(line, 4));
    let limit = number(word(line, 1));
    let ceiling = (number(word(line, 2)) % 0x1_0000_0000) as u32;
    let words = entries_words(number(word(line, 3)), ENTRY_WORDS);
    decode_with_into(
        to,
        mode,
        cut(&space, 0, count),
        limit,
        ceiling,
        &mut parts,
        words,
    );
}

fn packet_default<W: Write>(to: &mut W, mode: u64, line: &[u8]) {
    let mut space = buffer();
    let mut parts = table();
    let count = bytes_into(&mut space, word(line, 3));
    let limit = number(word(line, 1));
    let words = entries_words(number(word(line, 2)), ENTRY_WORDS);
    decode_into(to, mode, cut(&space, 0, count), limit, &mut parts, words);
}

fn say_part<W: Write>(to: &mut W, input: &[u8], parts: &[u64], index: usize) {
    let outcome = cablefinch_part(input, parts, index);
    let at = outcome.v0 as usize;
    let end = outcome.v0.wrapping_add(outcome.v1) as usize;
    say::text(to, b"ok");
    say::bytes(to, cut(input, at, end));
    say::checksum(to, cablefinch_part_checksum(input, parts, index));
}

fn part<W: Write>(to: &mut W, line: &[u8]) {
    let mut space = buffer();
    let mut parts = table();
    let count = bytes_into(&mut space, word(line, 2));
    let words = words_into(&mut parts, word(line, 3));
    let index = number(word(line, 1)) as usize;
    say_part(to, cut(&space, 0, count), front(&parts, words), index);
}

// Flags are bits and no kind: a number.
fn flags(code: u64) -> u16 {
    (code % 0x1_0000) as u16
}

fn contains<W: Write>(to: &mut W, line: &[u8]) {
    let all = flags(number(word(line, 1)));
    let some = flags(number(word(line, 2)));
    say::text(to, b"ok");
    truth(to, cablefinch_contains(all, some));
}

fn validate<W: Write>(to: &mut W, mode: u64, line: &[u8]) {
    let mut space = buffer();
    let mut parts = table();
    let count = bytes_into(&mut space, word(line, 4));
    let words = words_into(&mut parts, word(line, 5));
    let kind = number(word(line, 1));
    say::accepted(
        to,
        cablefinch_validate(mode, kind, cut(&space, 0, count), front(&parts, words)),
    );
}

fn packet_size<W: Write>(to: &mut W, mode: u64, line: &[u8]) {
    let mut space = buffer();
    let mut parts = table();
    let count = bytes_into(&mut space, word(line, 4));
    let words = words_into(&mut parts, word(line, 5));
    let kind = number(word(line, 1));
    let outcome = cablefinch_encoded_size(mode, kind, cut(&space, 0, count), front(&parts, words));
    if say::accepted(to, outcome) {
        say::number(to, outcome.count);
    }
}

// The bytes that were written, or what was left alone.
pub(crate) fn say_written<W: Write>(to: &mut W, out: &[u8], outcome: Outcome) {
    if say::accepted(to, outcome) {
        say::number(to, outcome.count);
        say::bytes(to, cut(out, 0, outcome.count as usize));
        say::kept_bytes(to, out, outcome.count as usize);
        return;
    }
    say::kept_bytes(to, out, 0);
}

fn encode_into<W: Write>(
    to: &mut W,
    mode: u64,
    line: &[u8],
    area: &[u8],
    parts: &[u64],
    out: &mut [u8],
) {
    let wire = id_of(word(line, 3));
    let kind = number(word(line, 1));
    let flags = flags(number(word(line, 2)));
    let room = (number(word(line, 4)) as usize).min(out.len());
    let outcome = cablefinch_encode(mode, kind, flags, &wire, area, parts, &mut out[..room]);
    say_written(to, &out[..room], outcome);
}

fn packet_write<W: Write>(to: &mut W, mode: u64, line: &[u8]) {
    let mut space = buffer();
    let mut parts = table();
    let mut out = output();
    let count = bytes_into(&mut space, word(line, 5));
    let words = words_into(&mut parts, word(line, 6));
    encode_into(
        to,
        mode,
        line,
        cut(&space, 0, count),
        front(&parts, words),
        &mut out,
    );
}

// Whether the case is one of these.
pub(crate) fn answered<W: Write>(to: &mut W, line: &[u8], kind: &[u8]) -> bool {
    match kind {
        b"packet" => packet(to, ARCHIVE, line),
        b"packet-live" => packet(to, LIVE, line),
        b"packet-default" => packet_default(to, ARCHIVE, line),
        b"packet-default-live" => packet_default(to, LIVE, line),
        b"packet-write" => packet_write(to, ARCHIVE, line),
        b"packet-write-live" => packet_write(to, LIVE, line),
        b"packet-size" => packet_size(to, ARCHIVE, line),
        b"packet-size-live" => packet_size(to, LIVE, line),
        b"validate" => validate(to, ARCHIVE, line),
        b"validate-live" => validate(to, LIVE, line),
        b"part" => part(to, line),
        b"contains" => contains(to, line),
        _ => return false,
    }
    true
}
