// What a person is told of an input (document 02, A9): which length is waited for, or which field was looked at, where
// it stands, what was found there and what was wanted. The readers' orders of checks have it beside each line.
#![tactic(auto)]

ghost use Rattle.std.specs.Prelude.{◌≡◌, [], ◌∷◌};
ghost use Rattle.words.specs.Paper.{outcome_of};
ghost use Rattle.finding.specs.Words.{place_words, NumbersField, TellsFinding};

use words::outcome::{ACCEPTED, MORE, Outcome, REFUSED};

// The kind of an outcome that tells of an accepted rowset that is not plain, beside those of `words`.
pub const NOT_PLAIN: u64 = 3;

// A field or a length, by the name that is printed.
#[derive(Clone, Copy)]
pub enum Field {
    FixedHeader,
    Signature,
    TypeCode,
    FixedChecksum,
    PartCount,
    Headers,
    VariableChecksum,
    PartSize,
    Whole,
    PartChecksum,
    RowCount,
    ValueCount,
    ValueHeader,
    Word,
    Blob,
    Length,
    TrailingBytes,
    Aggregate,
    Padding,
}

// The one right value or the largest allowed; or, where the allowed ones have a gap or depend on the mode, all of them.
#[derive(Clone, Copy)]
pub enum Wanted {
    Number(u64),
    LiveTypes,
    ValueTypes,
}

#[derive(Clone, Copy)]
pub enum Finding {
    // Accepted, and a rowset in the plain form.
    Fine,
    // Need-more: the length that is waited for.
    More {
        field: Field,
        length: u64,
    },
    // A refusal by its number in document 01: the enums of errors are the readers', which stand above this crate.
    Refused {
        number: u64,
        field: Field,
        offset: u64,
        found: u64,
        wanted: Wanted,
    },
    // An accepted rowset that is not plain.
    NotPlain {
        field: Field,
        offset: u64,
        found: u64,
        wanted: Wanted,
    },
}

// A field by its number, for callers in other languages. A function and no `From`: `field_number_unique` names it.
pub fn field_number(field: Field) -> u64
    ensures { NumbersField field result }
{
    match field {
        Field::FixedHeader => 1,
        Field::Signature => 2,
        Field::TypeCode => 3,
        Field::FixedChecksum => 4,
        Field::PartCount => 5,
        Field::Headers => 6,
        Field::VariableChecksum => 7,
        Field::PartSize => 8,
        Field::Whole => 9,
        Field::PartChecksum => 10,
        Field::RowCount => 11,
        Field::ValueCount => 12,
        Field::ValueHeader => 13,
        Field::Word => 14,
        Field::Blob => 15,
        Field::Length => 16,
        Field::TrailingBytes => 17,
        Field::Aggregate => 18,
        Field::Padding => 19,
    }
}

// A place as an outcome: the field, its offset, what was found, and what was wanted with its kind. Kind and number are
// an outcome's own words here and below, as the C interface has them.
fn place(kind: u64, number: u64, field: Field, offset: u64, found: u64, wanted: Wanted) -> Outcome
    ensures { result ≡ place_words kind number field offset found wanted }
{
    match wanted {
        Wanted::Number(bound) => words(kind, number, field_number(field), offset, found, bound, 0),
        Wanted::LiveTypes => words(kind, number, field_number(field), offset, found, 0, 1),
        Wanted::ValueTypes => words(kind, number, field_number(field), offset, found, 0, 2),
    }
}

fn words(kind: u64, number: u64, v0: u64, v1: u64, v2: u64, v3: u64, v4: u64) -> Outcome
    ensures { result ≡ outcome_of kind number 0 (v0 ∷ v1 ∷ v2 ∷ v3 ∷ v4 ∷ []) }
{
    Outcome {
        kind,
        number,
        count: 0,
        v0,
        v1,
        v2,
        v3,
        v4,
        v5: 0,
        v6: 0,
    }
}

// A finding as an outcome: its kind, a refusal's number, and in the values the field's number, its offset (of need-more
// the length), what was found, what was wanted, and whether that is a number or a list of types.
impl From<Finding> for Outcome {
    ghost from_gives = { λ finding result. TellsFinding finding result };

    fn from(finding: Finding) -> Outcome {
        match finding {
            Finding::Fine => words(ACCEPTED, 0, 0, 0, 0, 0, 0),
            Finding::More { field, length } => words(MORE, 0, field_number(field), length, 0, 0, 0),
            Finding::Refused {
                number,
                field,
                offset,
                found,
                wanted,
            } => place(REFUSED, number, field, offset, found, wanted),
            Finding::NotPlain {
                field,
                offset,
                found,
                wanted,
            } => place(NOT_PLAIN, 0, field, offset, found, wanted),
        }
    }
}
