// Notes: Any and Composite values, which are YSON. Whether bytes are one node, and where the items of an outer map lie.
#![tactic(auto)]

ghost use Rattle.words.specs.Paper.{Tells};
ghost use Rattle.yson.specs.Paper.{paper};
ghost use Rattle.face_notes.specs.Statement.{ChecksYson, ListsYson};

use words::outcome::{Outcome, no_room, refusal, taken};
use yson::{Fault, YsonError};

// The answer in words. No `From`: neither type is this crate's.
fn listed_outcome(answer: Result<usize, YsonError>) -> Outcome
    ensures { Tells (paper answer) result }
{
    match answer {
        Ok(items) => taken(0, items as u64, 0, 0),
        Err(YsonError::Broken(Fault::BadYson(place))) => refusal(20, 0, place as u64, 0, 0),
        Err(YsonError::Broken(Fault::TooDeep(place))) => refusal(21, 0, place as u64, 0, 0),
        Err(YsonError::Short(short)) => no_room(short),
    }
}

// Whether the input is one YSON node, and how many items its outer map has.
#[unsafe(no_mangle)]
pub extern "C" fn cablefinch_yson_check(input: &[u8]) -> Outcome
    ensures { ChecksYson input.now result }
{
    listed_outcome(yson::check(input))
}

// Where key and value of each item of the outer map begin and end, into a lent table.
#[unsafe(no_mangle)]
pub extern "C" fn cablefinch_yson_items(input: &[u8], table: &mut [u64]) -> Outcome
    ensures { ListsYson input.now table.old result table.new }
{
    listed_outcome(yson::items(input, table))
}
