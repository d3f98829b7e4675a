// What a bus packet is: its types, flags and refusals, its layout, and the lent part table with what its entries name
// in an input or an area. The reader, the writer's checks and the writer rest on it.
#![tactic(auto)]

ghost use Rattle.packet.specs.Statement.{TellsRetired, TellsVariableHeader, Contains, TellsNull, TellsOutside, LendsPart, NumbersType, FindsType, Refuses};

use guid::Guid;
use words::outcome::{NoRoom, Outcome, refusal, room_number};

pub const SIGNATURE: u32 = 0x7861_6d4f;

// Where the fields of the fixed header stand.
pub const TYPE_AT: usize = 4;

pub const FLAGS_AT: usize = 6;

pub const ID_AT: usize = 8;

pub const COUNT_AT: usize = 24;

// The fields of the fixed header, which its checksum covers, in bytes.
pub const FIXED_FIELDS_SIZE: usize = 28;

// The size of the fixed header, in bytes.
pub const FIXED_HEADER_SIZE: usize = 36;

// A part's size word and its checksum word, in bytes, and both together.
pub const SIZE_BYTES: usize = 4;

pub const CHECKSUM_BYTES: usize = 8;

pub const PART_HEADER_SIZE: usize = 12;

// Both headers of a packet that has a variable header and no parts, in bytes.
pub const HEADERS_SIZE: usize = 44;

// The size word of a part that is absent, which is not the same as a part of length zero.
pub const NULL_PART_SIZE: u32 = 0xffff_ffff;

pub const MAX_PART_SIZE: u32 = 0x4000_0000;

pub const MAX_PART_COUNT: u32 = 0x1000_0000;

// A checksum word that holds this was not computed, and is not verified.
pub const NULL_CHECKSUM: u64 = 0;

// The words of an entry of the lent part table: offset, length, and the checksum word as stored in the packet.
pub const ENTRY_WORDS: usize = 3;

// The length word of a null part, whose offset is 0.
pub const NULL_LENGTH: u64 = 0xffff_ffff_ffff_ffff;

#[derive(Clone, Copy)]
pub enum PacketType {
    Message,
    Ack,
    SslAck,
}

// Whom the caller reads from or writes to. No live peer may send an SslAck; an archive still holds some.
#[derive(Clone, Copy)]
pub enum Mode {
    Archive,
    Live,
}

// A set of bits; an unknown bit is kept.
#[derive(Clone, Copy)]
pub struct PacketFlags(pub u16);

// A packet's header; how many parts it has, which stand in the lent table.
#[derive(Clone, Copy)]
pub struct Packet {
    pub packet_type: PacketType,
    pub flags: PacketFlags,
    pub id: Guid,
    pub parts: u32,
}

// After the Rust's `PacketError`; `NoRoom` and `BadTable` are the lent tables', `RetiredType` is the live mode's.
#[derive(Clone, Copy)]
pub enum PacketError {
    Signature(u32),
    UnknownType(u16),
    TooManyParts {
        count: u32,
    },
    PartTooLarge {
        index: usize,
        size: u32,
    },
    FixedHeaderChecksum {
        expected: u64,
        actual: u64,
    },
    VariableHeaderChecksum {
        expected: u64,
        actual: u64,
    },
    PartChecksum {
        index: usize,
        expected: u64,
        actual: u64,
    },
    MessageTooLarge {
        size: u64,
        limit: u64,
    },
    NoRoom(NoRoom),
    // The rule stays a number: `refused` takes every one, and an enum would ask more of its callers.
    BadTable {
        rule: u64,
        position: u64,
    },
    RetiredType(u16),
}

// The type's number on the wire.
impl From<PacketType> for u16 {
    ghost from_gives = { λ type number. NumbersType type number };

    fn from(packet_type: PacketType) -> u16 {
        match packet_type {
            PacketType::Message => 0,
            PacketType::Ack => 1,
            PacketType::SslAck => 2,
        }
    }
}

// The type that has this number, if one has. It is no `TryFrom`: an unknown number is no error by itself, but the
// reader's or the C interface's, and each says where it stood.
pub fn type_of(number: u64) -> Option<PacketType>
    ensures { FindsType number result }
{
    match number {
        0 => Some(PacketType::Message),
        1 => Some(PacketType::Ack),
        2 => Some(PacketType::SslAck),
        _ => None,
    }
}

// A refusal in document 01's number and values, after so many bytes consumed. Both are needed, so this is no `From` of
// the error alone.
pub fn refused(error: PacketError, consumed: usize) -> Outcome
    ensures { Refuses error consumed result }
{
    let count = consumed as u64;
    match error {
        PacketError::Signature(found) => refusal(1, count, found as u64, 0, 0),
        PacketError::UnknownType(found) => refusal(2, count, found as u64, 0, 0),
        PacketError::TooManyParts { count: parts } => refusal(3, count, parts as u64, 0, 0),
        PacketError::PartTooLarge { index, size } => {
            refusal(4, count, index as u64, size as u64, 0)
        }
        PacketError::FixedHeaderChecksum { expected, actual } => {
            refusal(5, count, expected, actual, 0)
        }
        PacketError::VariableHeaderChecksum { expected, actual } => {
            refusal(6, count, expected, actual, 0)
        }
        PacketError::PartChecksum {
            index,
            expected,
            actual,
        } => refusal(7, count, index as u64, expected, actual),
        PacketError::MessageTooLarge { size, limit } => refusal(8, count, size, limit, 0),
        PacketError::NoRoom(short) => {
            let room = short.room;
            refusal(17, count, room_number(room), short.needed, short.given)
        }
        PacketError::BadTable { rule, position } => refusal(18, count, rule, position, 0),
        PacketError::RetiredType(found) => refusal(24, count, found as u64, 0, 0),
    }
}

// Whether the type is retired in this mode.
pub fn is_retired(mode: Mode, packet_type: PacketType) -> bool
    ensures { TellsRetired mode packet_type result }
{
    match mode {
        Mode::Archive => false,
        Mode::Live => match packet_type {
            PacketType::Message => false,
            PacketType::Ack => false,
            PacketType::SslAck => true,
        },
    }
}

// Messages always have a variable header, other packets only when they have parts.
pub fn has_variable_header(packet_type: PacketType, count: usize) -> bool
    ensures { TellsVariableHeader packet_type count result }
{
    match packet_type {
        PacketType::Message => true,
        PacketType::Ack => 0 < count,
        PacketType::SslAck => 0 < count,
    }
}

// Whether each bit of `other` is set in `flags`, after the Rust's `PacketFlags::contains`.
pub fn contains(flags: PacketFlags, other: PacketFlags) -> bool
    ensures { Contains flags other result }
{
    flags.0 & other.0 == other.0
}

// Whether an entry's offset and length are those of a null part.
pub fn is_null(offset: u64, length: u64) -> bool
    ensures { TellsNull offset length result }
{
    if offset == 0 {
        length == NULL_LENGTH
    } else {
        false
    }
}

// Whether an entry names a stretch outside an area of `given` bytes. The sum of offset and length is not formed: it may
// not fit.
pub fn is_outside(given: u64, offset: u64, length: u64) -> bool
    ensures { TellsOutside given offset length result }
{
    if is_null(offset, length) {
        return false;
    }
    if given < offset {
        return true;
    }
    given - offset < length
}

// Part `index` of the input, by the table's entry; the empty stretch at the front where there is none.
pub fn part<'a>(input: &'a [u8], parts: &[u64], index: usize) -> &'a [u8]
    ensures { LendsPart input.now parts.now index input.entry.ref_ptr result.now result.ref_ptr }
{
    if parts.len() / ENTRY_WORDS <= index {
        return &input[..0];
    }
    let offset = parts[ENTRY_WORDS * index];
    let length = parts[ENTRY_WORDS * index + 1];
    if is_null(offset, length) {
        return &input[..0];
    }
    if is_outside(input.len() as u64, offset, length) {
        return &input[..0];
    }
    let start = offset as usize;
    let end = start + length as usize;
    &input[start..end]
}
