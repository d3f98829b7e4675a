// The tokens of YSON's binary form (document 02, A4): where the one that begins at an offset ends. A byte past the
// end of the input counts as 0, which begins no token.
#![tactic(auto)]

ghost use Rattle.yson_token.specs.Token.{number_end, text_end};
ghost use Rattle.yson_token.specs.Statement.{ReadsByte, Finds, FindsScalar, FindsKey};

use varint::read::{Varint, read_varint};

// The byte at `at`, 0 past the end.
pub fn byte_at(s: &[u8], at: usize) -> u8
    ensures { ReadsByte s.now at result }
{
    if at < s.len() { s[at] } else { 0 }
}

// The end of a number whose varint begins at `at`.
#[tactic(auto, unfolding(crate::specs::Token::number_end))]
fn number(s: &[u8], at: usize) -> Option<usize>
    ensures { Finds (number_end s.now at) result }
{
    let Varint { next, .. } = read_varint(s, at, s.len())?;
    Some(next)
}

// The end of a string whose length begins at `at`. The length is zigzag: an odd varint is a negative one.
#[tactic(auto, unfolding(crate::specs::Token::text_end, crate::specs::Token::string_from, crate::specs::Token::within))]
fn text(s: &[u8], at: usize) -> Option<usize>
    ensures { Finds (text_end s.now at) result }
{
    let Varint { value, next } = read_varint(s, at, s.len())?;
    if value % 2 == 1 {
        return None;
    }
    if 0xffff_ffff < value {
        return None;
    }
    let size = (value / 2) as usize;
    if s.len() - next < size {
        return None;
    }
    Some(next + size)
}

// Where the scalar that begins at `at` ends, if a whole one does.
#[tactic(auto, unfolding(crate::specs::Token::scalar_end, crate::specs::Token::within))]
pub fn scalar(s: &[u8], at: usize) -> Option<usize>
    ensures { FindsScalar s.now at result }
{
    match byte_at(s, at) {
        1 => text(s, at + 1),
        2 | 6 => number(s, at + 1),
        3 => {
            if s.len() - at < 9 {
                return None;
            }
            Some(at + 9)
        }
        4 | 5 | b'#' => Some(at + 1),
        _ => None,
    }
}

// Where the string that begins at `at` ends, if a whole one does: what may be a key.
#[tactic(auto, unfolding(crate::specs::Token::key_end))]
pub fn key(s: &[u8], at: usize) -> Option<usize>
    ensures { FindsKey s.now at result }
{
    if byte_at(s, at) == 1 {
        return text(s, at + 1);
    }
    None
}
