// Notes: Any and Composite values, which are YSON.
ghost use Rattle.face_notes.specs.Statement.{ChecksYson, ListsYson};

use words::outcome::Outcome;

// Whether the input is one YSON node, and how many items its outer map has.
#[unsafe(no_mangle)]
pub extern "C" fn cablefinch_yson_check(input: &[u8]) -> Outcome
    ensures { ChecksYson input.now result }
{
    face_notes::cablefinch_yson_check(input)
}

// Where key and value of each item of the outer map begin and end, into a lent table.
#[unsafe(no_mangle)]
pub extern "C" fn cablefinch_yson_items(input: &[u8], table: &mut [u64]) -> Outcome
    ensures { ListsYson input.now table.old result table.new }
{
    face_notes::cablefinch_yson_items(input, table)
}
