// The checksum of a packet's part. It stands apart from `packet`, which so needs no engine of the checksum.
#![tactic(auto)]

ghost use Rattle.packet_sum.specs.Statement.{PartChecksumIs};

use packet::part;

// The checksum of the stretch that `part` lends.
pub fn part_checksum(input: &[u8], parts: &[u64], index: usize) -> u64
    ensures { PartChecksumIs input.now parts.now index result }
{
    checksum::checksum(part(input, parts, index))
}
