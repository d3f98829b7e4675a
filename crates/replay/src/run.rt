// One case: its line's words, the call of the static library's function, and the answer. Every lent table and buffer is
// filled with bytes 0xa5 before the call.
ghost use Rattle.std.specs.Prelude.{◌≡◌, length};

use crate::read::{buffer, bytes_into, cut, word};
use crate::{packets, rowsets, say};
use face_checksums::{cablefinch_checksum, cablefinch_finish, cablefinch_update};
use face_ids::{
    cablefinch_guid_from_parts, cablefinch_guid_halves, cablefinch_guid_is_null,
    cablefinch_guid_parse, cablefinch_guid_parts, cablefinch_guid_print,
};
use std::io::Write;
use words::outcome::Outcome;

fn checksum<W: Write>(to: &mut W, line: &[u8]) {
    let mut space = buffer();
    let count = bytes_into(&mut space, word(line, 1));
    say::text(to, b"ok");
    say::checksum(to, cablefinch_checksum(cut(&space, 0, count)));
}

fn updated(register: u64, text: &[u8]) -> u64 {
    let mut space = buffer();
    let count = bytes_into(&mut space, text);
    cablefinch_update(register, cut(&space, 0, count))
}

// At most eight stretches.
fn crc<W: Write>(to: &mut W, line: &[u8]) {
    let register = (1..9).fold(0, |register, index| updated(register, word(line, index)));
    say::text(to, b"ok");
    say::checksum(to, cablefinch_finish(register));
}

// The sixteen bytes of an id whose four words an outcome tells.
pub(crate) fn say_id<W: Write>(to: &mut W, w0: u64, w1: u64, w2: u64, w3: u64) {
    let mut wire = [0u8; 16];
    cablefinch_guid_from_parts(
        (w0 % 0x1_0000_0000) as u32,
        (w1 % 0x1_0000_0000) as u32,
        (w2 % 0x1_0000_0000) as u32,
        (w3 % 0x1_0000_0000) as u32,
        &mut wire,
    );
    say::bytes(to, &wire);
}

// ID: sixteen bytes.
pub(crate) fn id_of(text: &[u8]) -> [u8; 16]
    ensures { 16 ≡ length result }
{
    let mut wire = [0u8; 16];
    bytes_into(&mut wire, text);
    wire
}

fn say_printed<W: Write>(to: &mut W, text: &[u8], outcome: Outcome) {
    if say::accepted(to, outcome) {
        say::text(to, b" ");
        say::text(to, cut(text, 0, outcome.count as usize));
    }
    say::kept_bytes(to, text, outcome.count as usize);
}

fn guid_print<W: Write>(to: &mut W, line: &[u8]) {
    let wire = id_of(word(line, 1));
    let mut text = [0xa5u8; 64];
    let outcome = cablefinch_guid_print(&wire, &mut text);
    say_printed(to, &text, outcome);
}

fn guid_read<W: Write>(to: &mut W, line: &[u8]) {
    let mut space = buffer();
    let count = bytes_into(&mut space, word(line, 1));
    let outcome = cablefinch_guid_parse(cut(&space, 0, count));
    if say::accepted(to, outcome) {
        say_id(to, outcome.v0, outcome.v1, outcome.v2, outcome.v3);
    }
}

// Yes or no, as a number: what is printed, and no step that is picked.
pub(crate) fn truth<W: Write>(to: &mut W, yes: bool) {
    say::number(to, u64::from(yes));
}

fn guid_parts<W: Write>(to: &mut W, line: &[u8]) {
    let wire = id_of(word(line, 1));
    let parts = cablefinch_guid_parts(&wire);
    let halves = cablefinch_guid_halves(&wire);
    say::text(to, b"ok");
    say::number(to, parts.v0);
    say::number(to, parts.v1);
    say::number(to, parts.v2);
    say::number(to, parts.v3);
    say::number(to, halves.v0);
    say::number(to, halves.v1);
    truth(to, cablefinch_guid_is_null(&wire));
}

fn others<W: Write>(to: &mut W, line: &[u8], kind: &[u8]) {
    match kind {
        b"crc" => crc(to, line),
        b"checksum" => checksum(to, line),
        b"guid-print" => guid_print(to, line),
        b"guid-read" => guid_read(to, line),
        b"guid-parts" => guid_parts(to, line),
        _ => say::text(to, b"bad case"),
    }
}

// The case on a line, answered on a line.
pub(crate) fn case<W: Write>(to: &mut W, line: &[u8]) {
    let kind = word(line, 0);
    if !packets::answered(to, line, kind) && !rowsets::answered(to, line, kind) {
        others(to, line, kind);
    }
    say::text(to, b"\n");
}
