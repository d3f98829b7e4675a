// The digits of a word and of an escape, and what stands behind a value.
// All of it is private to the crate.
ghost use Rattle.std.specs.Prelude.{◌≡◌, ◌+◌, ◌<◌, ◌≤◌};
ghost use Rattle.words.specs.Decide.{pick, ◌<?◌, ◌=?◌};
ghost use Rattle.text_form.specs.Form.{tab, line_feed};

// What a letter's value is added to, as a capital and as a small letter.
pub(crate) const CAPITAL: u8 = b'A' - 10;

pub(crate) const SMALL: u8 = b'a' - 10;

// The hex digit of a value below 16, its letters capital or small.
pub(crate) fn hex_digit<const LETTERS: u8>(value: u8) -> u8
    requires { (value < 16) × (LETTERS ≤ 240) }
    ensures { result ≡ pick (value <? 10) (48 + value) (LETTERS + value) }
{
    if value < 10 {
        b'0' + value
    } else {
        LETTERS + value
    }
}

// What stands behind a value of which `left` are still to be written, itself counted.
pub(crate) fn separator(left: usize) -> u8
    ensures { result ≡ pick (left =? 1) line_feed tab }
{
    if left == 1 { b'\n' } else { b'\t' }
}
