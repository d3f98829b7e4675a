// The walk over a text, piece by piece: an id, a head, a scalar's digits, a blob's bytes, a value, the values of a
// line, a line. Each piece says where the next begins, or what is met first.
ghost use Rattle.std.specs.Prelude.{◌≡◌, true, ◌||◌, ◌-◌, ◌<◌, ◌≤◌};
ghost use lib.ListN.{length, get_or};
ghost use Rattle.wire.specs.Layout.{boolean, max_rows, max_size};
ghost use Rattle.words.specs.Decide.{◌=?◌};
ghost use Rattle.text_form.specs.Form.{tab, line_feed, null_sign};
ghost use Rattle.text_form.specs.Walk.{small_value, capital_value, fits_word, fits_high};
ghost use Rattle.text_steps.specs.Stages.{is_digit};
ghost use Rattle.text_walk.specs.Stages.{IdChecks, LetterChecks, HeadChecks, Digits, Fits, WordChecks, High, EscapeChecks};
ghost use Rattle.text_walk.specs.Stages.{UnitsCheck, EndChecks, ScalarChecks, BlobChecks, ValueChecks, ValuesCheck, NullChecks, LineChecks};

use super::error::{BadPlace, TextError};
use text_spell::{capital_value, is_escaped, small_value, type_of};
use wire::error::WireError;
use wire::kind::{BOOLEAN, Kind, kind_of};
use wire::layout::{
    MAX_ROWS_PER_ROWSET, MAX_ROWSET_SIZE, MAX_VALUE_LENGTH, MAX_VALUES_PER_ROW, WORD_SIZE, padded,
};
use word_read::read_u64;

// Eight digits 0, and seven and a 1, as words are read.
const ZEROS: u64 = 0x3030_3030_3030_3030;

const ZEROS_AND_ONE: u64 = 0x3130_3030_3030_3030;

// One value more than a row may have.
const TOO_MANY_VALUES: u64 = MAX_VALUES_PER_ROW + 1;

// The type that a value's head names, and where its content begins. A type is its code, here and below: so it goes to
// the lent table (see wire's `kind`).
#[derive(Clone, Copy)]
pub(crate) struct Head {
    pub(crate) next: usize,
    pub(crate) kind: u64,
}

// A blob's bytes up to the tab or line feed behind them.
#[derive(Clone, Copy)]
pub(crate) struct Blob {
    pub(crate) next: usize,
    pub(crate) length: usize,
}

// A value with the byte behind it, the rowset's size with it, and whether that byte ended the line.
#[derive(Clone, Copy)]
pub(crate) struct Value {
    pub(crate) next: usize,
    pub(crate) length: usize,
    pub(crate) size: usize,
    pub(crate) last: bool,
}

// A line: where the next begins, how many values and blob bytes it has, and the rowset's size with it.
#[derive(Clone, Copy)]
pub(crate) struct Line {
    pub(crate) next: usize,
    pub(crate) values: usize,
    pub(crate) bytes: usize,
    pub(crate) size: usize,
}

// The rest of an id whose digits so far spell `first`, and its colon. The text, where it goes on and `first` are
// parameters of their own, here and in the two functions that hand them down: this one alone uses `first`. Each piece
// requires that it begins within the text, which is lent whole: a refusal tells its place in the whole text.
fn check_id(text: &[u8], start: usize, first: u64) -> Result<usize, BadPlace>
    requires { (start ≤ length text.now) × (first ≤ 65535) }
    ensures { IdChecks text.now start first result }
{
    let mut id = first;
    for at in start..text.len() {
        let byte = text[at];
        if byte == b':' {
            return Ok(at + 1);
        }
        if byte < b'0' {
            return Err(BadPlace { place: at });
        }
        if b'9' < byte {
            return Err(BadPlace { place: at });
        }
        if id == 0 {
            return Err(BadPlace { place: at });
        }
        let more = id * 10 + (byte - b'0') as u64;
        if 65535 < more {
            return Err(BadPlace { place: at });
        }
        id = more;
    }
    Err(BadPlace { place: text.len() })
}

// A type's letter, behind the colon or behind the aggregate's sign.
fn check_letter(text: &[u8], at: usize) -> Result<Head, BadPlace>
    requires { at ≤ length text.now }
    ensures { LetterChecks text.now at result }
{
    if text.len() <= at {
        return Err(BadPlace { place: at });
    }
    let kind = type_of(text[at]);
    match kind_of(kind) {
        Kind::Unknown => Err(BadPlace { place: at }),
        Kind::Null | Kind::Scalar | Kind::Blob => Ok(Head { next: at + 1, kind }),
    }
}

// The byte at a place, 0 past the end.
fn byte_at(text: &[u8], at: usize) -> u8
    ensures { result ≡ get_or text.now at 0 }
{
    if text.len() <= at {
        return 0;
    }
    text[at]
}

// The rest of an id, its colon, the aggregate's sign and the type's letter.
fn check_head(text: &[u8], start: usize, first: u64) -> Result<Head, BadPlace>
    requires { (start ≤ length text.now) × (first ≤ 65535) }
    ensures { HeadChecks text.now start first result }
{
    let next = check_id(text, start, first)?;
    if byte_at(text, next) == b'!' {
        return check_letter(text, next + 1);
    }
    check_letter(text, next)
}

// Whether a digit of this value fits a scalar of which `left` digits are to come, itself counted: a boolean is zeros
// and then 0 or 1.
fn digit_fits(kind: u64, left: usize, value: u32) -> bool
    requires { 0 < left }
    ensures { result ≡ fits_word kind (left - 1) value }
{
    if 15 < value {
        return false;
    }
    if kind != BOOLEAN {
        return true;
    }
    if left == 1 {
        return value < 2;
    }
    value == 0
}

// The sixteen digits of a scalar's word, one after the other, so that the first that does not fit has its place.
fn place_word(text: &[u8], start: usize, kind: u64) -> Result<usize, BadPlace>
    requires { start ≤ length text.now }
    ensures { WordChecks text.now start kind result }
{
    for k in 0..16 {
        let at = start + k;
        if text.len() <= at {
            return Err(BadPlace { place: at });
        }
        if !digit_fits(kind, 16 - k, small_value(text[at])) {
            return Err(BadPlace { place: at });
        }
    }
    Ok(start + 16)
}

// 0 where this byte is a hex digit with small letters. Its value is computed as if it were one, below 16 whatever the
// byte is; the digit of that value must be the byte. No test is made, and each byte goes through the same steps, so
// that the compiler takes sixteen at once.
fn misfit(byte: u8) -> u8
    ensures { result ≡ 0 → small_value byte ≤ 15 }
{
    let value = (byte % 16 + 9 * (byte / 64)) % 16;
    (48 + value + 39 * ((value + 6) / 16)) ^ byte
}

// Whether sixteen bytes are such digits.
fn are_digits(bytes: &[u8]) -> bool
    requires { length bytes.now ≡ 16 }
    ensures { result ≡ true → Digits 16 bytes.now }
{
    let mut misfits: u8 = 0;
    for k in 0..16 {
        misfits |= misfit(bytes[k]);
    }
    misfits == 0
}

// Whether sixteen bytes are the digits of 0 or of 1.
fn are_boolean(bytes: &[u8]) -> bool
    requires { length bytes.now ≡ 16 }
    ensures { result ≡ true → Fits boolean bytes.now }
{
    if read_u64(&bytes[0..8], 0) != ZEROS {
        return false;
    }
    let low = read_u64(&bytes[8..16], 0);
    if low == ZEROS {
        return true;
    }
    low == ZEROS_AND_ONE
}

// The sixteen digits of a scalar's word: all at once where they are there and fit.
fn check_word(text: &[u8], start: usize, kind: u64) -> Result<usize, BadPlace>
    requires { start ≤ length text.now }
    ensures { WordChecks text.now start kind result }
{
    if text.len() - start < 16 {
        return place_word(text, start, kind);
    }
    let digits = &text[start..start + 16];
    if kind == BOOLEAN {
        if are_boolean(digits) {
            return Ok(start + 16);
        }
        return place_word(text, start, kind);
    }
    if are_digits(digits) {
        return Ok(start + 16);
    }
    place_word(text, start, kind)
}

// Whether some escaped byte has this high digit.
fn high_fits(value: u32) -> bool
    ensures { result ≡ fits_high value }
{
    matches!(value, 0..=2 | 7..=15)
}

// The two digits behind a percent sign, one after the other, so that the first that does not fit has its place.
fn place_escape(text: &[u8], at: usize) -> Result<usize, BadPlace>
    requires { at ≤ length text.now }
    ensures { EscapeChecks text.now at result }
{
    if text.len() <= at {
        return Err(BadPlace { place: at });
    }
    let high = capital_value(text[at]);
    if !high_fits(high) {
        return Err(BadPlace { place: at });
    }
    let second = at + 1;
    if text.len() <= second {
        return Err(BadPlace { place: second });
    }
    let low = capital_value(text[second]);
    if 15 < low {
        return Err(BadPlace { place: second });
    }
    if !is_escaped((high * 16 + low) as u8) {
        return Err(BadPlace { place: second });
    }
    Ok(second + 1)
}

// Whether this is the high digit of escaped bytes alone. One arm for each digit, here and below: such a `match` on a
// byte compiles to a table, patterns of ranges to one test behind the other.
#[tactic(auto, unfolding(text_form::specs::Walk::capital_value))]
fn is_high(high: u8) -> bool
    ensures { result ≡ true → High (capital_value high) }
{
    match high {
        b'0' => true,
        b'1' => true,
        b'8' => true,
        b'9' => true,
        b'A' => true,
        b'B' => true,
        b'C' => true,
        b'D' => true,
        b'E' => true,
        b'F' => true,
        _ => false,
    }
}

// Whether this is a hex digit with capital letters.
#[tactic(auto, unfolding(text_form::specs::Walk::capital_value))]
fn is_low(low: u8) -> bool
    ensures { result ≡ true → capital_value low ≤ 15 }
{
    match low {
        b'0' => true,
        b'1' => true,
        b'2' => true,
        b'3' => true,
        b'4' => true,
        b'5' => true,
        b'6' => true,
        b'7' => true,
        b'8' => true,
        b'9' => true,
        b'A' => true,
        b'B' => true,
        b'C' => true,
        b'D' => true,
        b'E' => true,
        b'F' => true,
        _ => false,
    }
}

// The two digits behind a percent sign, which spell a byte that must be escaped. Most have a high digit that tells so
// by itself; their value is not wanted here.
fn check_escape(text: &[u8], at: usize) -> Result<usize, BadPlace>
    requires { at ≤ length text.now }
    ensures { EscapeChecks text.now at result }
{
    if text.len() - at < 2 {
        return place_escape(text, at);
    }
    if !is_high(text[at]) {
        return place_escape(text, at);
    }
    if !is_low(text[at + 1]) {
        return place_escape(text, at);
    }
    Ok(at + 2)
}

// 12: a blob with one byte more than it may have.
fn too_long() -> TextError
    ensures { result ≡ TextError.Limit (WireError.ValueTooLong 16777217) }
{
    TextError::Limit(WireError::ValueTooLong {
        length: MAX_VALUE_LENGTH + 1,
    })
}

// A blob's bytes, up to the tab or line feed behind them. This loop and that over the values of a line step by what
// they read, one byte or several: no range counts them.
fn check_units(text: &[u8], start: usize) -> Result<Blob, TextError>
    requires { start ≤ length text.now }
    ensures { UnitsCheck text.now start result }
{
    let mut at = start;
    // Where a byte would be one too many. A count of its own would go through memory at every byte.
    let mut limit = start + MAX_VALUE_LENGTH as usize;
    while at < text.len() {
        let byte = text[at];
        if !is_escaped(byte) {
            if at == limit {
                return Err(too_long());
            }
            at += 1;
            continue;
        }
        match byte {
            b'%' => {
                // No `?`: a wrong version of this answer alone is tried.
                let next = match check_escape(text, at + 1) {
                    Ok(next) => next,
                    Err(bad) => return Err(TextError::BadText { place: bad.place }),
                };
                if at == limit {
                    return Err(too_long());
                }
                limit += next - at - 1;
                at = next;
            }
            b'\t' | b'\n' => {
                return Ok(Blob {
                    next: at,
                    length: at + MAX_VALUE_LENGTH as usize - limit,
                });
            }
            _ => return Err(TextError::BadText { place: at }),
        }
    }
    Err(TextError::BadText { place: at })
}

// A tab or a line feed.
fn ends_value(byte: u8) -> bool
    ensures { result ≡ (byte =? tab || byte =? line_feed) }
{
    byte == b'\t' || byte == b'\n'
}

// The tab or line feed behind a value of so many blob bytes, with which the rowset has this size: 13 where that is too
// much.
fn check_end(text: &[u8], at: usize, length: usize, size: usize) -> Result<Value, TextError>
    requires { at ≤ lib.ListN.length text.now }
    ensures { EndChecks text.now at length size result }
{
    let byte = byte_at(text, at);
    let ends = ends_value(byte);
    let large = MAX_ROWSET_SIZE < size;
    if !ends {
        return Err(TextError::BadText { place: at });
    }
    if large {
        return Err(TextError::Limit(WireError::RowsetTooLarge { size }));
    }
    Ok(Value {
        next: at + 1,
        length,
        size,
        last: byte == b'\n',
    })
}

// A scalar's digits and the byte behind them, with which the rowset has this size.
fn check_scalar(text: &[u8], at: usize, kind: u64, size: usize) -> Result<Value, TextError>
    requires { at ≤ length text.now }
    ensures { ScalarChecks text.now at kind size result }
{
    let next = check_word(text, at, kind)?;
    check_end(text, next, 0, size)
}

// A blob's bytes and the byte behind them; before the value the rowset has this size. That the size keeps the limit is
// required here and below, for no sum may wrap; a type for such a size would be taken apart at every sum.
fn check_blob(text: &[u8], at: usize, size: usize) -> Result<Value, TextError>
    requires { (at ≤ length text.now) × (size ≤ max_size) }
    ensures { BlobChecks text.now at size result }
{
    let Blob { next, length } = check_units(text, at)?;
    check_end(text, next, length, size + WORD_SIZE + padded(length as u32))
}

// A value whose id begins with `first`, and the byte behind it; before it the rowset has this size.
fn check_value(text: &[u8], start: usize, first: u64, size: usize) -> Result<Value, TextError>
    requires { (start ≤ length text.now) × (first ≤ 65535) × (size ≤ max_size) }
    ensures { ValueChecks text.now start first size result }
{
    let Head { next, kind } = check_head(text, start, first)?;
    match kind_of(kind) {
        Kind::Null | Kind::Unknown => check_end(text, next, 0, size + WORD_SIZE),
        Kind::Scalar => check_scalar(text, next, kind, size + WORD_SIZE + WORD_SIZE),
        Kind::Blob => check_blob(text, next, size),
    }
}

// A digit of a decimal number.
fn is_digit(byte: u8) -> bool
    ensures { result ≡ is_digit byte }
{
    byte.is_ascii_digit()
}

// The values of a line whose first byte is a digit, in the row of this number; with the row's word the rowset has the
// size `before`.
fn check_values(text: &[u8], start: usize, row: usize, before: usize) -> Result<Line, TextError>
    requires { (start ≤ length text.now) × (is_digit (get_or text.now start 0) ≡ true) × (row < max_rows)
        × (before ≤ max_size) }
    ensures { ValuesCheck text.now start row before result }
{
    let mut at = start;
    let mut count: usize = 0;
    let mut bytes: usize = 0;
    let mut size = before;
    while at < text.len() {
        let byte = text[at];
        let digit = is_digit(byte);
        let full = count == MAX_VALUES_PER_ROW as usize;
        if !digit {
            return Err(TextError::BadText { place: at });
        }
        if full {
            return Err(TextError::Limit(WireError::TooManyValues {
                row,
                count: TOO_MANY_VALUES,
            }));
        }
        let Value {
            next,
            length,
            size: sum,
            last,
        } = check_value(text, at + 1, (byte - b'0') as u64, size)?;
        count += 1;
        bytes += length;
        size = sum;
        at = next;
        if last {
            return Ok(Line {
                next,
                values: count,
                bytes,
                size,
            });
        }
    }
    Err(TextError::BadText { place: at })
}

// The line feed behind the sign of a null row, with which the rowset has this size.
fn check_null(text: &[u8], at: usize, size: usize) -> Result<Line, TextError>
    requires { at ≤ length text.now }
    ensures { NullChecks text.now at size result }
{
    if text.len() <= at {
        return Err(TextError::BadText { place: at });
    }
    if text[at] != b'\n' {
        return Err(TextError::BadText { place: at });
    }
    Ok(Line {
        next: at + 1,
        values: 0,
        bytes: 0,
        size,
    })
}

// Whether a line may begin with this byte.
fn begins_line(byte: u8) -> bool
    ensures { result ≡ (byte =? line_feed || byte =? null_sign || is_digit byte) }
{
    byte == b'\n' || byte == b'#' || is_digit(byte)
}

// The line of the row of this number; before it the rowset has this size.
pub(crate) fn check_line(text: &[u8], at: usize, row: usize, size: usize) -> Result<Line, TextError>
    requires { (at < length text.now) × (row ≤ max_rows) × (size ≤ max_size) }
    ensures { LineChecks text.now at row size result }
{
    let byte = text[at];
    if !begins_line(byte) {
        return Err(TextError::BadText { place: at });
    }
    if row == MAX_ROWS_PER_ROWSET as usize {
        return Err(TextError::Limit(WireError::TooManyRows {
            count: MAX_ROWS_PER_ROWSET + 1,
        }));
    }
    let sum = size + WORD_SIZE;
    if MAX_ROWSET_SIZE < sum {
        return Err(TextError::Limit(WireError::RowsetTooLarge { size: sum }));
    }
    match byte {
        b'\n' => Ok(Line {
            next: at + 1,
            values: 0,
            bytes: 0,
            size: sum,
        }),
        b'#' => check_null(text, at + 1, sum),
        _ => check_values(text, at, row, sum),
    }
}
