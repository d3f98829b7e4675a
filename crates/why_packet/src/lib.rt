// Why a packet was refused, or what is waited for (document 02, A9): the reader is asked, and its answer is told to a
// person.
#![tactic(auto)]

ghost use Rattle.std.specs.Prelude.{◌≡◌};
ghost use Rattle.packet.specs.Paper.{number_of, values_of};
ghost use Rattle.finding.specs.Meaning.{name_of, meaning};
ghost use Rattle.why_packet.specs.Checks.{ExplainsPacket};
ghost use Rattle.why_packet.specs.Stages.{refusal_tells, Inside, length_name, more_tells, Waits};

use finding::{Field, Finding, Wanted};
use packet::{
    CHECKSUM_BYTES, COUNT_AT, FIXED_FIELDS_SIZE, FIXED_HEADER_SIZE, HEADERS_SIZE, MAX_PART_COUNT,
    MAX_PART_SIZE, Mode, PART_HEADER_SIZE, PacketError, PacketType, SIGNATURE, SIZE_BYTES, TYPE_AT,
    refused,
};
use packet_answer::{Refusal, outcome};
use packet_read::decode_with;
use word_read::read_u32;

// Which length passes a bound: that of the headers of so many parts, or the whole.
fn length_field(count: u32, bound: u64) -> Field
    ensures { name_of result ≡ length_name count bound }
{
    let headers = HEADERS_SIZE as u64 + PART_HEADER_SIZE as u64 * count as u64;
    if bound < headers {
        Field::Headers
    } else {
        Field::Whole
    }
}

// A refusal of a packet of so many parts, by what it carries.
fn refusal(count: u32, error: PacketError, max_part_count: u32) -> Finding
    requires { Inside count (number_of error) (values_of error) }
    ensures { meaning result ≡ refusal_tells count max_part_count (number_of error) (values_of error) }
{
    let told = refused(error, 0);
    let number = told.number;
    match error {
        PacketError::Signature(found) => Finding::Refused {
            number,
            field: Field::Signature,
            offset: 0,
            found: found as u64,
            wanted: Wanted::Number(SIGNATURE as u64),
        },
        PacketError::UnknownType(found) => Finding::Refused {
            number,
            field: Field::TypeCode,
            offset: TYPE_AT as u64,
            found: found as u64,
            wanted: Wanted::Number(u16::from(PacketType::SslAck) as u64),
        },
        PacketError::RetiredType(found) => Finding::Refused {
            number,
            field: Field::TypeCode,
            offset: TYPE_AT as u64,
            found: found as u64,
            wanted: Wanted::LiveTypes,
        },
        PacketError::FixedHeaderChecksum { expected, actual } => Finding::Refused {
            number,
            field: Field::FixedChecksum,
            offset: FIXED_FIELDS_SIZE as u64,
            found: expected,
            wanted: Wanted::Number(actual),
        },
        PacketError::TooManyParts { count: found } => Finding::Refused {
            number,
            field: Field::PartCount,
            offset: COUNT_AT as u64,
            found: found as u64,
            wanted: Wanted::Number(MAX_PART_COUNT.min(max_part_count) as u64),
        },
        PacketError::MessageTooLarge { size, limit } => Finding::Refused {
            number,
            field: length_field(count, limit),
            offset: 0,
            found: size,
            wanted: Wanted::Number(limit),
        },
        PacketError::VariableHeaderChecksum { expected, actual } => Finding::Refused {
            number,
            field: Field::VariableChecksum,
            offset: (FIXED_HEADER_SIZE + PART_HEADER_SIZE * count as usize) as u64,
            found: expected,
            wanted: Wanted::Number(actual),
        },
        PacketError::PartTooLarge { index, size } => Finding::Refused {
            number,
            field: Field::PartSize,
            offset: (FIXED_HEADER_SIZE + SIZE_BYTES * index) as u64,
            found: size as u64,
            wanted: Wanted::Number(MAX_PART_SIZE as u64),
        },
        PacketError::PartChecksum {
            index,
            expected,
            actual,
        } => Finding::Refused {
            number,
            field: Field::PartChecksum,
            offset: (FIXED_HEADER_SIZE
                + SIZE_BYTES * count as usize
                + CHECKSUM_BYTES * index) as u64,
            found: expected,
            wanted: Wanted::Number(actual),
        },
        PacketError::NoRoom(_) => Finding::Fine,
        PacketError::BadTable { .. } => Finding::Fine,
    }
}

// Need-more: a limit of the bytes that are there refuses the length that is waited for, so the reader tells it.
fn waited(mode: Mode, input: &[u8], count: u32, max_part_count: u32, none: &mut [u64]) -> Finding
    requires { Waits input.now count mode max_part_count }
    ensures { meaning result ≡ more_tells input.now count }
{
    if input.len() < FIXED_HEADER_SIZE {
        return Finding::More {
            field: Field::FixedHeader,
            length: FIXED_HEADER_SIZE as u64,
        };
    }
    let there = input.len() as u64;
    let told = outcome(decode_with(mode, input, there, max_part_count, none));
    Finding::More {
        field: length_field(count, there),
        length: told.v0,
    }
}

fn explain_with(
    mode: Mode,
    input: &[u8],
    max_message_size: u64,
    max_part_count: u32,
    none: &mut [u64],
) -> Finding
    ensures { ExplainsPacket input.now mode max_message_size max_part_count result }
{
    let count = read_u32(input, COUNT_AT);
    match decode_with(mode, input, max_message_size, max_part_count, none) {
        Ok(Some(_)) => Finding::Fine,
        Ok(None) => waited(mode, input, count, max_part_count, none),
        Err(Refusal { error, consumed: _ }) => refusal(count, error, max_part_count),
    }
}

// Why the packet at the front of `input` is refused under these limits, or what length is waited for. No table is asked
// for, so a packet that only lacks room in one is fine.
pub fn explain(mode: Mode, input: &[u8], max_message_size: u64, max_part_count: u32) -> Finding
    ensures { ExplainsPacket input.now mode max_message_size max_part_count result }
{
    let mut space = [0u64; 1];
    let none: &mut [u64] = &mut space;
    explain_with(mode, input, max_message_size, max_part_count, none)
}
