// Packets read into a lent part table. A mode is a number, as the C interface has it: 0 is archive, any other is live.
// Writing stands in `face_packet_write`: so the loops of the checksum's engine that are compiled into the reader copy
// nothing.
#![tactic(auto)]

ghost use Rattle.packet_sum.specs.Statement.{PartChecksumIs};
ghost use Rattle.packet_read.specs.Statement.{default_ceiling};
ghost use Rattle.face_packets.specs.Statement.{Decodes};

use packet_mode::mode_of;
use words::outcome::Outcome;

// Reads the packet at the front of the input into a lent part table.
#[unsafe(no_mangle)]
pub extern "C" fn cablefinch_decode_with(
    mode: u64,
    input: &[u8],
    max_message_size: u64,
    max_part_count: u32,
    parts: &mut [u64],
) -> Outcome
    ensures { Decodes mode input.now max_message_size max_part_count parts.old result
        parts.new }
{
    let mode = mode_of(mode);
    packet_answer::outcome(packet_read::decode_with(
        mode,
        input,
        max_message_size,
        max_part_count,
        parts,
    ))
}

// The same with the default part ceiling, 65,536.
#[unsafe(no_mangle)]
pub extern "C" fn cablefinch_decode(
    mode: u64,
    input: &[u8],
    max_message_size: u64,
    parts: &mut [u64],
) -> Outcome
    ensures { Decodes mode input.now max_message_size default_ceiling parts.old result
        parts.new }
{
    let mode = mode_of(mode);
    packet_answer::outcome(packet_read::decode(mode, input, max_message_size, parts))
}

// The checksum of a part.
#[unsafe(no_mangle)]
pub extern "C" fn cablefinch_part_checksum(input: &[u8], parts: &[u64], index: usize) -> u64
    ensures { PartChecksumIs input.now parts.now index result }
{
    packet_sum::part_checksum(input, parts, index)
}
