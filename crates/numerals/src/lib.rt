// Numbers as text: decimal for offsets and counts, hex for the words of a GUID. A number is spelled highest digit
// first, without leading zeros, over the front of a lent part; where it does not fit the part keeps its contents, and
// the count is told all the same.
#![tactic(auto)]

ghost use Rattle.std.specs.Prelude.{◌≡◌, ◌^◌, ◌<◌, ◌≤◌, length};
ghost use Rattle.words.specs.Text.{digit, spelled};
ghost use Rattle.words.specs.Buffer.{over};
ghost use Rattle.numerals.specs.Statement.{hex, decimal, Sizes, Writes, ValueOf};

// How many hex digits a word has: one for each four bits up to the highest bit set, and at least one.
pub fn hex_size(word: u32) -> usize
    ensures { Sizes (hex word) result }
{
    let count = (35 - u32::leading_zeros(word)) / 4;
    if count == 0 { 1 } else { count as usize }
}

#[tactic(auto, unfolding(words::specs::Text::digit))]
fn digit(value: u64) -> u8
    requires { value < 16 }
    ensures { result ≡ digit value }
{
    if value < 10 {
        (48 + value) as u8
    } else {
        (87 + value) as u8
    }
}

// A number in a base, whose digits are at most `MOST` and of which there are `count`, and how many that is.
fn write_digits<const BASE: u64, const MOST: usize>(
    out: &mut [u8],
    number: u64,
    count: usize,
) -> usize
    requires { (1 < BASE) × (BASE ≤ 16) × (number < BASE ^ MOST) × (count ≡ length (spelled BASE MOST number)) }
    ensures { Writes (spelled BASE MOST number) out.old result out.new }
{
    if out.len() < count {
        return count;
    }
    // Counted down by hand: the last digit comes first, and each needs what the one behind it left.
    let mut left = count;
    let mut rest = number;
    while 0 < left {
        left -= 1;
        out[left] = digit(rest % BASE);
        rest /= BASE;
    }
    count
}

// The word in hex, and how many digits that is.
pub fn write_hex(out: &mut [u8], word: u32) -> usize
    ensures { Writes (hex word) out.old result out.new }
{
    write_digits::<16, 8>(out, word as u64, hex_size(word))
}

// How many decimal digits a number has. It divides, where `hex_size` counts bits: one function for both would divide
// for hex too.
pub fn decimal_size(number: u64) -> usize
    ensures { Sizes (decimal number) result }
{
    let mut count = 1;
    let mut rest = number;
    while 10 <= rest {
        count += 1;
        rest = rest / 10;
    }
    count
}

// The number in decimal, and how many digits that is.
pub fn write_decimal(out: &mut [u8], number: u64) -> usize
    ensures { Writes (decimal number) out.old result out.new }
{
    write_digits::<10, 20>(out, number, decimal_size(number))
}

// The value of a hex digit in either case, 16 for any other byte: no conversion, since it refuses nothing. A `match` on the byte compiles to a read-only table,
// where comparisons would be branches that no processor foresees.
#[tactic(auto, unfolding(words::specs::Text::digit_of))]
pub fn digit_value(byte: u8) -> u32
    ensures { ValueOf byte result }
{
    match byte {
        b'0' => 0,
        b'1' => 1,
        b'2' => 2,
        b'3' => 3,
        b'4' => 4,
        b'5' => 5,
        b'6' => 6,
        b'7' => 7,
        b'8' => 8,
        b'9' => 9,
        b'a' | b'A' => 10,
        b'b' | b'B' => 11,
        b'c' | b'C' => 12,
        b'd' | b'D' => 13,
        b'e' | b'E' => 14,
        b'f' | b'F' => 15,
        _ => 16,
    }
}
