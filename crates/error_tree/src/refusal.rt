// The refusals of reading and writing a TError, by document 02's numbers.
ghost use Rattle.words.specs.Paper.{Tells};
ghost use Rattle.error_tree.specs.Paper.{paper};

use words::outcome::{NoRoom, Outcome, no_room, refusal};

#[derive(Clone, Copy)]
pub enum ErrorRefusal {
    // 22: no whole field of the message begins here.
    BadMessage { place: usize },
    // 23: this inner error would be the 17th level.
    ErrorsTooDeep { place: usize },
    // 18: which rule the tables break, and where. The rule stays a number: the `From` below takes every one, and an enum
    // would ask more of its callers.
    BadTable { rule: u64, position: usize },
    // 17
    NoRoom(NoRoom),
}

// A refusal in words.
impl From<ErrorRefusal> for Outcome {
    ghost from_gives = { λ answer result. Tells (paper answer) result };

    fn from(answer: ErrorRefusal) -> Outcome {
        match answer {
            ErrorRefusal::BadMessage { place } => refusal(22, 0, place as u64, 0, 0),
            ErrorRefusal::ErrorsTooDeep { place } => refusal(23, 0, place as u64, 0, 0),
            ErrorRefusal::BadTable { rule, position } => refusal(18, 0, rule, position as u64, 0),
            ErrorRefusal::NoRoom(short) => no_room(short),
        }
    }
}
