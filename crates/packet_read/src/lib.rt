// Bus packet framing, the reading side: a packet is a fixed header of 36 bytes, mostly a variable header of part sizes
// and checksums, and the parts. Everything is a function of lent bytes; the parts are given back as stretches of the
// input.
#![tactic(auto)]

ghost use Rattle.std.specs.Prelude.{◌≡◌, not, ◌&&◌, ◌+◌, ◌*◌, ◌≤◌, ◌<◌, length};
ghost use Rattle.words.specs.Decide.{pick, ◌=?◌, ◌<?◌};
ghost use Rattle.words.specs.Buffer.{over};
ghost use Rattle.packet.specs.Layout as Layout;
ghost use Rattle.packet.specs.Layout.{null_size, largest_part, most_parts, size_bytes, checksum_bytes, headers, size_place, sum_place, type, fields, whole};
ghost use Rattle.packet.specs.Entries.{null_length, entry_words, entries_from};
ghost use Rattle.packet.specs.Paper.{type_number, fields_of};
ghost use Rattle.packet_read.specs.Reading.{limited};
ghost use Rattle.packet_read.specs.Statement.{Decodes, default_ceiling};
ghost use Rattle.packet_read.specs.Stages.{Verifies, PartVerifies, FixedStage, SizesStage, SizedStage, VariableStage, PartsStage, BodyStage};

use guid::Guid;
use packet::{
    CHECKSUM_BYTES, COUNT_AT, ENTRY_WORDS, FIXED_FIELDS_SIZE, FIXED_HEADER_SIZE, FLAGS_AT,
    HEADERS_SIZE, ID_AT, MAX_PART_COUNT, MAX_PART_SIZE, Mode, NULL_CHECKSUM, NULL_LENGTH,
    NULL_PART_SIZE, PART_HEADER_SIZE, Packet, PacketError, PacketFlags, PacketType, SIGNATURE,
    SIZE_BYTES, TYPE_AT, has_variable_header, is_retired,
};
use packet_answer::{Decoded, Read, Refusal};
use word_read::{read_u16, read_u32, read_u64};
use words::outcome::{NoRoom, Room};

// How many parts `decode` accepts in one packet.
pub const DEFAULT_MAX_PART_COUNT: u32 = 0x1_0000;

// Whether bytes carry the checksum stored for them; if not, the checksum that they have.
fn verified(stored: u64, bytes: &[u8]) -> Result<(), u64>
    ensures { Verifies stored bytes.now result }
{
    if stored == NULL_CHECKSUM {
        return Ok(());
    }
    let actual = checksum::checksum(bytes);
    if actual == stored {
        return Ok(());
    }
    Err(actual)
}

fn header(input: &[u8], packet_type: PacketType) -> Packet
    requires { type_number packet_type ≡ type input.now }
    ensures { fields_of result ≡ fields input.now }
{
    Packet {
        packet_type,
        flags: PacketFlags(read_u16(input, FLAGS_AT)),
        id: Guid::from_bytes(input, ID_AT),
        parts: read_u32(input, COUNT_AT),
    }
}

// The packet's header, or nothing as yet where more bytes are needed.
fn fixed_header(mode: Mode, input: &[u8]) -> Result<Option<Packet>, PacketError>
    ensures { FixedStage mode input.now result }
{
    if input.len() < FIXED_HEADER_SIZE {
        return Ok(None);
    }
    let signature = read_u32(input, 0);
    if signature != SIGNATURE {
        return Err(PacketError::Signature(signature));
    }
    let raw = read_u16(input, TYPE_AT);
    let Some(packet_type) = packet::type_of(raw as u64) else {
        return Err(PacketError::UnknownType(raw));
    };
    if is_retired(mode, packet_type) {
        return Err(PacketError::RetiredType(raw));
    }
    let expected = read_u64(input, FIXED_FIELDS_SIZE);
    if let Err(actual) = verified(expected, &input[..FIXED_FIELDS_SIZE]) {
        return Err(PacketError::FixedHeaderChecksum { expected, actual });
    }
    Ok(Some(header(input, packet_type)))
}

// The bytes that a part takes, by its size word.
fn taken(size: u32) -> u64
    ensures { result ≡ pick (size =? null_size) 0 size }
{
    if size == NULL_PART_SIZE {
        0
    } else {
        size as u64
    }
}

fn too_large(size: u32) -> bool
    ensures { result ≡ (not (size =? null_size) && largest_part <? size) }
{
    if size == NULL_PART_SIZE {
        false
    } else {
        MAX_PART_SIZE < size
    }
}

// The size word of part `index`. Its bytes are lent alone: the compiler then knows that they are there.
fn size_word(input: &[u8], index: usize) -> u32
    requires { size_place index + size_bytes ≤ length input.now }
    ensures { result ≡ Layout.size input.now index }
{
    let at = FIXED_HEADER_SIZE + SIZE_BYTES * index;
    read_u32(&input[at..at + SIZE_BYTES], 0)
}

// The checksum word of part `index` of so many. Here and below `count` is the header's number of parts, and not the
// input's length; that it is at most `most_parts` is asked for, since no sum then overflows.
fn sum_word(input: &[u8], count: usize, index: usize) -> u64
    requires { sum_place count index + checksum_bytes ≤ length input.now }
    ensures { result ≡ Layout.part_sum input.now count index }
{
    let at = FIXED_HEADER_SIZE + SIZE_BYTES * count + CHECKSUM_BYTES * index;
    read_u64(&input[at..at + CHECKSUM_BYTES], 0)
}

// The bytes that the parts take together.
fn payload(input: &[u8], count: usize) -> Result<u64, PacketError>
    requires { (headers count ≤ length input.now) × (count ≤ most_parts) }
    ensures { SizesStage input.now count result }
{
    let mut payload: u64 = 0;
    for index in 0..count {
        let size = size_word(input, index);
        if too_large(size) {
            return Err(PacketError::PartTooLarge { index, size });
        }
        payload += taken(size);
    }
    Ok(payload)
}

// The bytes of the whole packet, or nothing as yet where more are needed.
fn sized(input: &[u8], count: usize, limit: u64) -> Result<Option<usize>, PacketError>
    requires { (headers count ≤ length input.now) × (count ≤ most_parts) }
    ensures { SizedStage input.now count limit result }
{
    let payload = payload(input, count)?;
    let size = (HEADERS_SIZE + PART_HEADER_SIZE * count) as u64 + payload;
    if limit < size {
        return Err(PacketError::MessageTooLarge { size, limit });
    }
    if (input.len() as u64) < size {
        return Ok(None);
    }
    Ok(Some(size as usize))
}

// The same, behind the checksum of the variable header.
fn variable_header(input: &[u8], count: usize, limit: u64) -> Result<Option<usize>, PacketError>
    requires { count ≤ most_parts }
    ensures { VariableStage input.now count limit result }
{
    let size = HEADERS_SIZE + PART_HEADER_SIZE * count;
    if limit < size as u64 {
        return Err(PacketError::MessageTooLarge {
            size: size as u64,
            limit,
        });
    }
    if input.len() < size {
        return Ok(None);
    }
    let sums = FIXED_HEADER_SIZE + PART_HEADER_SIZE * count;
    let expected = read_u64(input, sums);
    if let Err(actual) = verified(expected, &input[FIXED_HEADER_SIZE..sums]) {
        return Err(PacketError::VariableHeaderChecksum { expected, actual });
    }
    sized(input, count, limit)
}

// A null part's checksum word is not looked at.
fn check_part(stored: u64, size: u32, bytes: &[u8]) -> Result<(), u64>
    ensures { PartVerifies size stored bytes.now result }
{
    if size == NULL_PART_SIZE {
        return Ok(());
    }
    verified(stored, bytes)
}

fn check_parts(input: &[u8], count: usize) -> Result<(), Refusal>
    requires { (whole input.now count ≤ length input.now) × (count ≤ most_parts) }
    ensures { PartsStage input.now count result }
{
    let mut at = HEADERS_SIZE + PART_HEADER_SIZE * count;
    for index in 0..count {
        let size = size_word(input, index);
        let end = at + taken(size) as usize;
        let expected = sum_word(input, count, index);
        if let Err(actual) = check_part(expected, size, &input[at..end]) {
            return Err(Refusal {
                error: PacketError::PartChecksum {
                    index,
                    expected,
                    actual,
                },
                consumed: end,
            });
        }
        at = end;
    }
    Ok(())
}

fn offset_word(size: u32, at: u64) -> u64
    ensures { result ≡ pick (size =? null_size) 0 at }
{
    if size == NULL_PART_SIZE { 0 } else { at }
}

fn length_word(size: u32) -> u64
    ensures { result ≡ pick (size =? null_size) null_length size }
{
    if size == NULL_PART_SIZE {
        NULL_LENGTH
    } else {
        size as u64
    }
}

// The table's entries, from its front: offset, length, and the checksum word as it is stored, a null part's too.
fn fill(input: &[u8], count: usize, parts: &mut [u64])
    requires { (whole input.now count ≤ length input.now) × (count ≤ most_parts)
        × (entry_words * count ≤ length parts.old) }
    ensures { parts.new ≡ over (entries_from input.now count 0 count) parts.old }
{
    let mut at = (HEADERS_SIZE + PART_HEADER_SIZE * count) as u64;
    for index in 0..count {
        let size = size_word(input, index);
        let sum = sum_word(input, count, index);
        parts[ENTRY_WORDS * index] = offset_word(size, at);
        parts[ENTRY_WORDS * index + 1] = length_word(size);
        parts[ENTRY_WORDS * index + 2] = sum;
        at += taken(size);
    }
}

// A packet with a variable header: all that is asked behind the count of its parts.
fn body(input: &[u8], packet: Packet, count: usize, limit: u64, parts: &mut [u64]) -> Decoded
    requires { (fields_of packet ≡ fields input.now) × (count ≤ most_parts) × (count ≡ Layout.count input.now) }
    ensures { BodyStage input.now count limit parts.old result parts.new }
{
    let Some(consumed) = variable_header(input, count, limit)? else {
        return Ok(None);
    };
    check_parts(input, count)?;
    let room = parts.len() / ENTRY_WORDS;
    if room < count {
        return Err(Refusal::from(PacketError::NoRoom(NoRoom {
            room: Room::Parts,
            needed: count as u64,
            given: room as u64,
        })));
    }
    fill(input, count, parts);
    Ok(Some(Read { packet, consumed }))
}

// Reads one packet from the front of `input`, if a whole one is there.
pub fn decode_with(
    mode: Mode,
    input: &[u8],
    max_message_size: u64,
    max_part_count: u32,
    parts: &mut [u64],
) -> Decoded
    ensures { Decodes input.now (limited mode max_message_size max_part_count parts.old)
        parts.old result parts.new }
{
    let Some(packet) = fixed_header(mode, input)? else {
        return Ok(None);
    };
    let count = packet.parts;
    let most = MAX_PART_COUNT.min(max_part_count);
    if most < count {
        return Err(Refusal::from(PacketError::TooManyParts { count }));
    }
    let packet_type = packet.packet_type;
    if has_variable_header(packet_type, count as usize) {
        return body(input, packet, count as usize, max_message_size, parts);
    }
    Ok(Some(Read {
        packet,
        consumed: FIXED_HEADER_SIZE,
    }))
}

// Reads one packet from the front of `input`, of at most 65,536 parts.
pub fn decode(mode: Mode, input: &[u8], max_message_size: u64, parts: &mut [u64]) -> Decoded
    ensures { Decodes input.now (limited mode max_message_size default_ceiling parts.old)
        parts.old result parts.new }
{
    decode_with(mode, input, max_message_size, DEFAULT_MAX_PART_COUNT, parts)
}
