// What a writer of packets checks before it writes, and how many bytes it will write.
#![tactic(auto)]

ghost use Rattle.std.specs.Prelude.{◌≡◌, ◌≤◌, ◌*◌};
ghost use Rattle.packet.specs.Layout.{largest_part};
ghost use Rattle.packet.specs.Paper.{type_number};
ghost use Rattle.packet.specs.Entries.{room, is_too_large, taken};
ghost use Rattle.packet_check.specs.Checks.{capped, first_too_large};
ghost use Rattle.packet_check.specs.Stages.{outside_of, Small, size_by, taken_from};
ghost use Rattle.packet_check.specs.Statement.{Validates, Measures, TellsMeasured};

use packet::{
    ENTRY_WORDS, FIXED_HEADER_SIZE, HEADERS_SIZE, MAX_PART_COUNT, MAX_PART_SIZE, Mode,
    PART_HEADER_SIZE, PacketError, PacketType, has_variable_header, is_null, is_outside,
    is_retired,
};
use words::outcome::{Outcome, taken};

// The largest number that a refusal carries in 32 bits.
const MAX_CARRIED: u32 = 0xffff_ffff;

fn is_too_large(offset: u64, length: u64) -> bool
    ensures { result ≡ is_too_large offset length }
{
    if is_null(offset, length) {
        false
    } else {
        (MAX_PART_SIZE as u64) < length
    }
}

fn taken_by(offset: u64, length: u64) -> u64
    ensures { result ≡ taken offset length }
{
    if is_null(offset, length) { 0 } else { length }
}

fn cap(number: u64) -> u32
    ensures { result ≡ capped number }
{
    if number < MAX_CARRIED as u64 {
        number as u32
    } else {
        MAX_CARRIED
    }
}

fn first_outside(given: u64, parts: &[u64]) -> usize
    ensures { result ≡ outside_of given parts.now }
{
    let count = parts.len() / ENTRY_WORDS;
    for index in 0..count {
        if is_outside(
            given,
            parts[ENTRY_WORDS * index],
            parts[ENTRY_WORDS * index + 1],
        ) {
            return index;
        }
    }
    count
}

fn first_too_large(parts: &[u64]) -> usize
    ensures { result ≡ first_too_large parts.now }
{
    let count = parts.len() / ENTRY_WORDS;
    for index in 0..count {
        if is_too_large(parts[ENTRY_WORDS * index], parts[ENTRY_WORDS * index + 1]) {
            return index;
        }
    }
    count
}

// Checks that a packet of this type and these parts can be represented on the wire at all, that the table names only
// bytes of the area, and that the type is not retired.
pub fn validate(
    mode: Mode,
    packet_type: PacketType,
    area: &[u8],
    parts: &[u64],
) -> Result<(), PacketError>
    ensures { Validates mode packet_type area.now parts.now result }
{
    let count = parts.len() / ENTRY_WORDS;
    if parts.len() % ENTRY_WORDS != 0 {
        return Err(PacketError::BadTable {
            rule: 1,
            position: count as u64,
        });
    }
    let outside = first_outside(area.len() as u64, parts);
    if outside < count {
        return Err(PacketError::BadTable {
            rule: 3,
            position: outside as u64,
        });
    }
    if is_retired(mode, packet_type) {
        return Err(PacketError::RetiredType(u16::from(packet_type)));
    }
    if (MAX_PART_COUNT as usize) < count {
        return Err(PacketError::TooManyParts {
            count: cap(count as u64),
        });
    }
    let index = first_too_large(parts);
    if index < count {
        return Err(PacketError::PartTooLarge {
            index,
            size: cap(parts[ENTRY_WORDS * index + 1]),
        });
    }
    Ok(())
}

// The bytes of all parts, null parts having none.
fn payload(parts: &[u64]) -> usize
    requires { Small parts.now }
    ensures value { result ≡ taken_from parts.now 0 (room parts.now) }
    ensures upper_bound { result ≤ largest_part * room parts.now }
{
    let count = parts.len() / ENTRY_WORDS;
    let mut total: usize = 0;
    for index in 0..count {
        total += taken_by(parts[ENTRY_WORDS * index], parts[ENTRY_WORDS * index + 1]) as usize;
    }
    total
}

fn size(packet_type: PacketType, parts: &[u64]) -> usize
    requires { Small parts.now }
    ensures { result ≡ size_by (type_number packet_type) parts.now }
{
    let count = parts.len() / ENTRY_WORDS;
    if has_variable_header(packet_type, count) {
        HEADERS_SIZE + PART_HEADER_SIZE * count + payload(parts)
    } else {
        FIXED_HEADER_SIZE
    }
}

// The number of bytes that a writer will write.
pub fn encoded_size(
    mode: Mode,
    packet_type: PacketType,
    area: &[u8],
    parts: &[u64],
) -> Result<usize, PacketError>
    ensures { Measures mode packet_type area.now parts.now result }
{
    validate(mode, packet_type, area, parts)?;
    Ok(size(packet_type, parts))
}

// A number of bytes or a refusal in document 01's number and values, for the writer too. It is no `From`: neither a
// `Result` nor an `Outcome` is this crate's.
pub fn outcome(answer: Result<usize, PacketError>) -> Outcome
    ensures { TellsMeasured answer result }
{
    match answer {
        Ok(size) => taken(size as u64, 0, 0, 0),
        Err(error) => packet::refused(error, 0),
    }
}
