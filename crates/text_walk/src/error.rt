// What can be wrong with a rowset's text: 19 with its place, or a limit of the rowset.
ghost use Rattle.std.specs.Prelude.{◌≡◌};
ghost use Rattle.words.specs.Paper.{Tells};
ghost use Rattle.text_walk.specs.Paper.{text_paper};
ghost use Rattle.text_walk.specs.declared.error.TextError.TheVariants.{BadText};

use wire::error::WireError;
use words::outcome::{Outcome, refusal};

#[derive(Clone, Copy)]
pub enum TextError {
    // The first byte that no continuation could mend, or the length.
    BadText { place: usize },
    Limit(WireError),
}

// The place of 19, for the pieces that meet no limit: one word, where a `TextError` has several.
#[derive(Clone, Copy)]
pub(crate) struct BadPlace {
    pub(crate) place: usize,
}

impl From<BadPlace> for TextError {
    ghost from_gives = { λ bad e. e ≡ BadText bad.place };

    fn from(bad: BadPlace) -> TextError {
        TextError::BadText { place: bad.place }
    }
}

// A refusal as the documents' number and values.
impl From<TextError> for Outcome {
    ghost from_gives = { λ error result. Tells (text_paper error) result };

    fn from(error: TextError) -> Outcome {
        match error {
            TextError::BadText { place } => refusal(19, 0, place as u64, 0, 0),
            TextError::Limit(limit) => Outcome::from(limit),
        }
    }
}
