// What single bytes of a rowset's text spell, for its writer and its reader: a type's letter, a blob's byte, a hex
// digit.
#![tactic(auto)]

ghost use Rattle.std.specs.Prelude.{◌≡◌, ◌+◌, ◌≤◌};
ghost use Rattle.words.specs.Decide.{pick, ◌<?◌};
ghost use Rattle.text_spell.specs.Statement.{IsLetter, IsType, TellsEscaped, IsSmallValue, IsCapitalValue};

use numerals::digit_value;
use wire::kind::{ANY, BOOLEAN, COMPOSITE, DOUBLE, INT64, NULL, STRING, UINT64};

// The hex digits of a scalar's word.
pub const WORD_DIGITS: usize = 16;

// The letter of a type, 0 for a type that is not known. No `Option`: `letter_of` of the rows' form is a function to
// bytes, and the clause is the equation with it. So it is with the functions below that answer 0 or 16. A type is its
// code, here and below, as everywhere in rowsets (see wire's `kind`).
#[tactic(auto, unfolding(text_form::specs::Form::letter_of))]
pub fn letter(kind: u64) -> u8
    ensures { IsLetter kind result }
{
    match kind {
        NULL => b'n',
        INT64 => b'i',
        UINT64 => b'u',
        DOUBLE => b'd',
        BOOLEAN => b'b',
        STRING => b's',
        ANY => b'a',
        COMPOSITE => b'c',
        _ => 0,
    }
}

// The type of a letter, 0 for any other byte.
#[tactic(auto, unfolding(text_form::specs::Walk::type_of))]
pub fn type_of(byte: u8) -> u64
    ensures { IsType byte result }
{
    match byte {
        b'n' => NULL,
        b'i' => INT64,
        b'u' => UINT64,
        b'd' => DOUBLE,
        b'b' => BOOLEAN,
        b's' => STRING,
        b'a' => ANY,
        b'c' => COMPOSITE,
        _ => 0,
    }
}

// Whether a blob's byte stands escaped.
pub fn is_escaped(byte: u8) -> bool
    ensures { TellsEscaped byte result }
{
    byte < 0x21 || 0x7e < byte || byte == b'%'
}

// The small letter or the digit of this value, without a test: digits come as they will.
fn spelled(value: u32) -> u32
    requires { value ≤ 15 }
    ensures { result ≡ pick (value <? 10) (48 + value) (87 + value) }
{
    48 + value + 39 * ((value + 6) / 16)
}

// The value of a hex digit whose letters are small, 16 for any other byte. It is computed as if the byte were such a
// digit, and then held against the byte: the processor sees both tests ahead.
pub fn small_value(byte: u8) -> u32
    ensures { IsSmallValue byte result }
{
    let value = (byte % 16) as u32 + 9 * (byte / 64) as u32;
    if 15 < value {
        return 16;
    }
    if spelled(value) != byte as u32 {
        return 16;
    }
    value
}

// The value of a hex digit whose letters are capital, 16 for any other byte.
pub fn capital_value(byte: u8) -> u32
    ensures { IsCapitalValue byte result }
{
    if b'F' < byte {
        return 16;
    }
    digit_value(byte)
}
