// Bus packet framing, the writing side: the parts that a lent table names in a lent area are written to a lent output
// as one packet. Each writer is lent the part of the output that begins at its own place.
#![tactic(auto)]

ghost use Rattle.std.specs.Prelude.{◌≡◌, false, ◌≤◌, ◌+◌, ◌*◌, length, take};
ghost use Rattle.words.specs.Buffer.{over};
ghost use Rattle.crc64_fast.specs.Statement.{Copies};
ghost use Rattle.packet.specs.Layout.{fixed_fields_size, fixed_header_size, size_bytes, checksum_bytes};
ghost use Rattle.packet.specs.Paper.{type_number};
ghost use Rattle.packet.specs.Entries.{room, is_too_large};
ghost use Rattle.packet.specs.Wire.{sealed, fixed_fields, contents, body, parts_of};
ghost use Rattle.packet_check.specs.Checks.{first_too_large, first_outside};
ghost use Rattle.packet_check.specs.Stages.{Passes};
ghost use Rattle.packet_write.specs.Stages.{entry_size, entry_sizes, parts_at, parted};
ghost use Rattle.packet_write.specs.Statement.{Encodes, bytes_for};

use crc64_long::COPY_LONG_FROM;
use guid::Guid;
use packet::{
    CHECKSUM_BYTES, COUNT_AT, ENTRY_WORDS, FIXED_FIELDS_SIZE, FIXED_HEADER_SIZE, FLAGS_AT, ID_AT,
    Mode, NULL_PART_SIZE, PART_HEADER_SIZE, Packet, PacketError, PacketFlags, PacketType,
    SIGNATURE, SIZE_BYTES, TYPE_AT,
};
use word_write::{write_u16, write_u32, write_u64};
use words::outcome::{NoRoom, Room};

fn size_word(offset: u64, length: u64) -> u32
    requires { is_too_large offset length ≡ false }
    ensures { result ≡ entry_size offset length }
{
    if packet::is_null(offset, length) {
        return NULL_PART_SIZE;
    }
    length as u32
}

// The checksum of the output's first `size` bytes, behind them.
fn seal(size: usize, out: &mut [u8])
    requires { size + checksum_bytes ≤ length out.old }
    ensures { out.new ≡ over (sealed (take size out.old)) out.old }
{
    let sum = checksum::checksum(&out[..size]);
    write_u64(&mut out[size..], sum);
}

fn write_fields(header: Packet, out: &mut [u8])
    requires { fixed_fields_size ≤ length out.old }
    ensures { out.new
        ≡ over (fixed_fields (type_number header.packet_type) header.flags.0 header.id header.parts) out.old }
{
    write_u32(out, SIGNATURE);
    write_u16(&mut out[TYPE_AT..], u16::from(header.packet_type));
    write_u16(&mut out[FLAGS_AT..], header.flags.0);
    header.id.write(&mut out[ID_AT..]);
    write_u32(&mut out[COUNT_AT..], header.parts);
}

fn write_sizes(parts: &[u64], out: &mut [u8])
    requires { (room parts.now ≤ first_too_large parts.now) × (size_bytes * room parts.now ≤ length out.old) }
    ensures { out.new
        ≡ over (entry_sizes parts.now 0 (room parts.now)) out.old }
{
    let count = parts.len() / ENTRY_WORDS;
    for index in 0..count {
        let size = size_word(parts[ENTRY_WORDS * index], parts[ENTRY_WORDS * index + 1]);
        let at = SIZE_BYTES * index;
        write_u32(&mut out[at..], size);
    }
}

// A part over the front of `out`, and the register of the checksum, held byte-swapped, after it.
fn copied(bytes: &[u8], out: &mut [u8]) -> u64
    ensures { Copies 0 bytes.now out.old result out.new }
{
    if COPY_LONG_FROM <= bytes.len() {
        return crc64_long::copy_long(0, bytes, out);
    }
    crc64_lanes::copy_lanes(0, bytes, out)
}

// Area, part table and output are lent one by one here and below, as `encode` is given them: only the output is
// written, and each writer is lent its own part of it.

// The checksum words of the parts at the front of `out`, and the parts behind them and the eight bytes of the words'
// own checksum, which stay as they were. A part is copied and folded on one walk, and its word is put after it.
fn write_parts(area: &[u8], parts: &[u64], out: &mut [u8])
    requires { (room parts.now ≤ first_outside area.now parts.now)
        × (parts_at parts.now + length (contents (parts_of area.now parts.now)) ≤ length out.old) }
    ensures { out.new
        ≡ parted area.now parts.now out.old }
{
    let count = parts.len() / ENTRY_WORDS;
    let mut sum_at = 0;
    let mut part_at = CHECKSUM_BYTES * count + CHECKSUM_BYTES;
    for index in 0..count {
        let bytes = packet::part(area, parts, index);
        let register = copied(bytes, &mut out[part_at..]);
        part_at += bytes.len();
        write_u64(&mut out[sum_at..], crc64::swap_bytes(register));
        sum_at += CHECKSUM_BYTES;
    }
}

// What follows the fixed header: sizes, checksums, their checksum, and the parts.
fn write_body(area: &[u8], parts: &[u64], out: &mut [u8])
    requires { Passes area.now parts.now × (length (body (parts_of area.now parts.now)) ≤ length out.old) }
    ensures { out.new
        ≡ over (body (parts_of area.now parts.now)) out.old }
{
    let count = parts.len() / ENTRY_WORDS;
    write_sizes(parts, out);
    let sums = SIZE_BYTES * count;
    write_parts(area, parts, &mut out[sums..]);
    let size = PART_HEADER_SIZE * count;
    seal(size, out);
}

fn write_fixed(header: Packet, out: &mut [u8])
    requires { fixed_header_size ≤ length out.old }
    ensures { out.new
        ≡ over (sealed (fixed_fields (type_number header.packet_type) header.flags.0 header.id header.parts)) out.old }
{
    write_fields(header, out);
    seal(FIXED_FIELDS_SIZE, out);
}

fn write_packet(
    packet_type: PacketType,
    flags: PacketFlags,
    id: Guid,
    area: &[u8],
    parts: &[u64],
    out: &mut [u8],
)
    requires { Passes area.now parts.now
        × (length (bytes_for packet_type flags id area.now parts.now) ≤ length out.old) }
    ensures { out.new
        ≡ over (bytes_for packet_type flags id area.now parts.now) out.old }
{
    let count = parts.len() / ENTRY_WORDS;
    let header = Packet {
        packet_type,
        flags,
        id,
        parts: count as u32,
    };
    write_fixed(header, out);
    if packet::has_variable_header(packet_type, count) {
        write_body(area, parts, &mut out[FIXED_HEADER_SIZE..]);
    }
}

// Writes the packet to the front of `out`. Fails on parts that `validate` would reject, so that what this writes, a
// reader accepts.
pub fn encode(
    mode: Mode,
    packet_type: PacketType,
    flags: PacketFlags,
    id: Guid,
    area: &[u8],
    parts: &[u64],
    out: &mut [u8],
) -> Result<usize, PacketError>
    ensures { Encodes mode packet_type flags id area.now parts.now out.old
        result out.new }
{
    let needed = packet_check::encoded_size(mode, packet_type, area, parts)?;
    if out.len() < needed {
        return Err(PacketError::NoRoom(NoRoom {
            room: Room::Output,
            needed: needed as u64,
            given: out.len() as u64,
        }));
    }
    write_packet(packet_type, flags, id, area, parts, out);
    Ok(needed)
}
