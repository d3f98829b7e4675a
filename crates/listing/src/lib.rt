// What the program `list` prints, whole, as one function of its input: a line for each packet and part, and how the
// bytes end. The program over it only reads and writes.
#![tactic(auto)]

ghost use Rattle.std.specs.Prelude.{◌≡◌, [], ◌∷◌, ◌++◌, ◌+◌, ◌*◌, ◌≤◌, ◌<◌, length};
ghost use Rattle.words.specs.Buffer.{over};
ghost use Rattle.packet.specs.Entries.{entry_words};
ghost use Rattle.packet.specs.Paper.{fields_of};
ghost use Rattle.listing.specs.Text.{line, guard_text, packet_line, part_line, part_lines, end_line, more_line, refused_line};
ghost use Rattle.listing.specs.Output.{most_bytes, part_ceiling, text_room, lines_from};
ghost use Rattle.listing.specs.Statement.{Lists};
ghost use Rattle.listing.specs.Stages.{Wrote, entry_text, Steps, Fits};

use packet::{ENTRY_WORDS, Mode, NULL_CHECKSUM, NULL_LENGTH, refused};
use text::{put_bytes, put_field, put_id};
use words::outcome::{NoRoom, Room};

mod text;

// The most bytes that are listed.
pub const MAX_INPUT: usize = 65_536;

// The room that takes the text of every input: five bytes of text for a byte of input, and a last line.
pub const TEXT_ROOM: usize = 327_808;

const MAX_MESSAGE_SIZE: u64 = 65_536;

const MAX_PART_COUNT: u32 = 2_048;

// The words of a part table with room for them.
const PART_WORDS: usize = 6_144;

// One step of the walk: a packet's lines end at `end`, and the next packet begins at `next`; or the last line ends
// there. It is no `Option` or `Result`: both cases are places, and neither is a failure.
#[derive(Clone, Copy)]
enum Stepped {
    Packet { next: usize, end: usize },
    Last(usize),
}

// Each line is told where it is written and the offset that it tells, and answers where it ends. No struct holds these
// here and below: a line's end is the next one's place, and the offset stays. Each asks for the room of its line.

fn packet_line(out: &mut [u8], at: usize, offset: usize, packet: packet::Packet) -> usize
    requires { at + 128 ≤ length out.old }
    ensures { Wrote (packet_line offset (fields_of packet)) at out.old result out.new × (result ≤ at + 128) }
{
    let packet_type = packet.packet_type;
    let type_at = put_bytes(out, at, b"packet ");
    let flags_at = put_field(out, type_at, offset as u64, b' ');
    let flags = packet.flags.0 as u64;
    let id_at = put_field(out, flags_at, u16::from(packet_type) as u64, b' ');
    let parts_at = put_field(out, id_at, flags, b' ');
    let id = packet.id;
    let count_at = put_id(out, parts_at, id);
    put_field(out, count_at, packet.parts as u64, b'\n')
}

// Whether a part came with a checksum, and the line's end.
fn put_guard(out: &mut [u8], at: usize, sum: u64) -> usize
    requires { at + 8 ≤ length out.old }
    ensures { Wrote (line (guard_text sum ∷ [])) at out.old result out.new × (result ≤ at + 8) }
{
    if sum == NULL_CHECKSUM {
        return put_bytes(out, at, b"bare\n");
    }
    put_bytes(out, at, b"guarded\n")
}

// The rest of a part's line: that it is null, or its length and whether it was guarded.
fn put_entry(out: &mut [u8], at: usize, size: u64, sum: u64) -> usize
    requires { at + 29 ≤ length out.old }
    ensures { Wrote (entry_text size sum) at out.old result out.new × (result ≤ at + 29) }
{
    if size == NULL_LENGTH {
        return put_bytes(out, at, b"null\n");
    }
    let guard_at = put_field(out, at, size, b' ');
    put_guard(out, guard_at, sum)
}

fn part_line(out: &mut [u8], at: usize, index: usize, size: u64, sum: u64) -> usize
    requires { at + 55 ≤ length out.old }
    ensures { Wrote (part_line index size sum) at out.old result out.new × (result ≤ at + 55) }
{
    let index_at = put_bytes(out, at, b"part ");
    let length_at = put_field(out, index_at, index as u64, b' ');
    put_entry(out, length_at, size, sum)
}

// The lines of the parts of a part table, of which the first `count` entries are asked for; the table is longer.
fn part_lines(out: &mut [u8], at: usize, parts: &[u64], count: usize) -> usize
    requires { (at + 55 * count ≤ length out.old) × (entry_words * count ≤ length parts.now) }
    ensures { Wrote (part_lines parts.now count) at out.old result out.new
        × (result ≤ at + 55 * count) }
{
    let mut next = at;
    for index in 0..count {
        let size = parts[ENTRY_WORDS * index + 1];
        let sum = parts[ENTRY_WORDS * index + 2];
        next = part_line(out, next, index, size, sum);
    }
    next
}

fn packet_lines(
    out: &mut [u8],
    at: usize,
    offset: usize,
    packet: packet::Packet,
    parts: &[u64],
) -> usize
    requires { (at + (128 + 55 * packet.parts) ≤ length out.old)
        × (entry_words * packet.parts ≤ length parts.now) }
    ensures { Wrote (packet_line offset (fields_of packet) ++ part_lines parts.now packet.parts) at
        out.old result out.new × (result ≤ at + (128 + 55 * packet.parts)) }
{
    let count = packet.parts as usize;
    let parts_at = packet_line(out, at, offset, packet);
    part_lines(out, parts_at, parts, count)
}

fn end_line(out: &mut [u8], at: usize, offset: usize) -> usize
    requires { at + 128 ≤ length out.old }
    ensures { Wrote (end_line offset) at out.old result out.new }
{
    let offset_at = put_bytes(out, at, b"end ");
    put_field(out, offset_at, offset as u64, b'\n')
}

fn more_line(out: &mut [u8], at: usize, offset: usize) -> usize
    requires { at + 128 ≤ length out.old }
    ensures { Wrote (more_line offset) at out.old result out.new }
{
    let offset_at = put_bytes(out, at, b"more ");
    put_field(out, offset_at, offset as u64, b'\n')
}

// A refusal's number in document 01, which is what is printed.
fn refused_line(out: &mut [u8], at: usize, offset: usize, number: u64) -> usize
    requires { at + 128 ≤ length out.old }
    ensures { Wrote (refused_line offset number) at out.old result out.new }
{
    let offset_at = put_bytes(out, at, b"refused ");
    let number_at = put_field(out, offset_at, offset as u64, b' ');
    put_field(out, number_at, number, b'\n')
}

// The lines for the packet that begins at `offset`, written at `at`.
fn step(input: &[u8], offset: usize, parts: &mut [u64], out: &mut [u8], at: usize) -> Stepped
    requires { (length input.now ≤ most_bytes) × (offset ≤ length input.now) × (at ≤ 5 * offset)
        × (text_room ≤ length out.old) × (length parts.old ≡ entry_words * part_ceiling) }
    ensures { Steps input.now offset at out.old result out.new }
{
    if input.len() <= offset {
        return Stepped::Last(end_line(out, at, offset));
    }
    match packet_read::decode_with(
        Mode::Archive,
        &input[offset..],
        MAX_MESSAGE_SIZE,
        MAX_PART_COUNT,
        parts,
    ) {
        Ok(None) => Stepped::Last(more_line(out, at, offset)),
        Err(refusal) => {
            let outcome = refused(refusal.error, 0);
            Stepped::Last(refused_line(out, at, offset, outcome.number))
        }
        Ok(Some(read)) => {
            let end = packet_lines(out, at, offset, read.packet, parts);
            Stepped::Packet {
                next: offset + read.consumed,
                end,
            }
        }
    }
}

// All lines, over the front of `out`.
fn lines(input: &[u8], parts: &mut [u64], out: &mut [u8]) -> usize
    requires { (length input.now ≤ most_bytes) × (text_room ≤ length out.old)
        × (length parts.old ≡ entry_words * part_ceiling) }
    ensures { Wrote (lines_from (length input.now + 1) input.now 0) 0 out.old result
        out.new }
{
    let mut offset = 0;
    let mut at = 0;
    loop {
        match step(input, offset, parts, out, at) {
            Stepped::Last(end) => {
                return end;
            }
            Stepped::Packet { next, end } => {
                offset = next;
                at = end;
            }
        }
    }
}

// Writes the whole output of `list` for an input over the front of `out`, and answers how many bytes it has.
pub fn list(input: &[u8], out: &mut [u8]) -> Result<usize, NoRoom>
    ensures lists { Lists input.now out.old result out.new }
    ensures fits { Fits out.old result }
{
    if out.len() < TEXT_ROOM {
        return Err(NoRoom {
            room: Room::Output,
            needed: TEXT_ROOM as u64,
            given: out.len() as u64,
        });
    }
    if MAX_INPUT < input.len() {
        return Ok(put_bytes(out, 0, b"too long\n"));
    }
    let mut part_space = [0u64; PART_WORDS];
    let parts: &mut [u64] = &mut part_space;
    Ok(lines(input, parts, out))
}
