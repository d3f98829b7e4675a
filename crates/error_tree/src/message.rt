// A field of one of the three messages: those that the message knows have a type of their own. A message goes by how
// many fields it knows, as in the definitions of its fields (`fields`, `whole_in`). A field's number and how many are
// known are numbers of the wire: of unknown fields any number comes.
ghost use Rattle.error_tree.specs.Stages.{TypesField};
ghost use Rattle.error_tree.specs.Statement.{ReadsKnown};

use field::field::{Field, WireType, read_field};

// How many fields each message knows, numbered from 1.
pub const ERROR_FIELDS: u64 = 4;

pub const DICTIONARY_FIELDS: u64 = 1;

pub const ATTRIBUTE_FIELDS: u64 = 2;

// The wire type of a field of a message that knows so many fields, where it knows this one.
fn wire_type(known: u64, number: u64) -> Option<WireType>
    ensures { TypesField known number result }
{
    if known < number {
        return None;
    }
    if known == ERROR_FIELDS && number == 1 {
        return Some(WireType::Varint);
    }
    Some(WireType::Bytes)
}

// The field at `at` of a message that ends at `end` and knows so many fields: one that it knows has its own wire type.
pub fn read_known(input: &[u8], at: usize, end: usize, known: u64) -> Option<Field>
    ensures { ReadsKnown known input.now at end result }
{
    let field = read_field(input, at, end)?;
    let Some(own) = wire_type(known, field.number) else {
        return Some(field);
    };
    if own != field.wire {
        return None;
    }
    Some(field)
}
