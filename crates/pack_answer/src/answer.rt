// What packing answers: how many bytes of the second area are filled, or a refusal.
ghost use Rattle.words.specs.Paper.{Tells};
ghost use Rattle.pack_answer.specs.Paper.{paper_packed};

use wire::error::WireError;
use words::outcome::{Outcome, taken};

// The bytes filled, or the refusal, as document 01's number and values.
// (No `From`: both `Outcome` and `Result` are of other crates.)
pub fn outcome(answer: Result<u64, WireError>) -> Outcome
    ensures { Tells (paper_packed answer) result }
{
    match answer {
        Ok(size) => taken(size, 0, 0, 0),
        Err(error) => Outcome::from(error),
    }
}
