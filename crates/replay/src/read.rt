// The words of a case, by compare/PROTOCOL.md. Every function takes every text: what is no number, hex or table reads
// as something.
ghost use Rattle.std.specs.Prelude.{◌≡◌, ◌<◌, ◌≤◌, length};

// What is lent, by functions that tell their arrays' lengths alone, so that no caller's proof looks into them.

pub(crate) fn buffer() -> [u8; 4_096]
    ensures { 4096 ≡ length result }
{
    [0; 4_096]
}

pub(crate) fn output() -> [u8; 8_192]
    ensures { 8192 ≡ length result }
{
    [0xa5; 8_192]
}

pub(crate) fn table() -> [u64; 512]
    ensures { 512 ≡ length result }
{
    [0xa5a5_a5a5_a5a5_a5a5; 512]
}

pub(crate) fn values_table() -> [u64; 2_560]
    ensures { 2560 ≡ length result }
{
    [0xa5a5_a5a5_a5a5_a5a5; 2_560]
}

// The stretch of `text` from `from` to `end`; nothing where there is none.
pub(crate) fn cut<'a>(text: &'a [u8], from: usize, end: usize) -> &'a [u8] {
    text.get(from..end).unwrap_or(&[])
}

// The word of a line that has so many before it.
pub(crate) fn word<'a>(line: &'a [u8], index: usize) -> &'a [u8] {
    line.split(|byte| *byte == b' ').nth(index).unwrap_or(&[])
}

fn digit(byte: u8) -> u8
    ensures { result < 16 }
{
    match byte {
        b'0'..=b'9' => byte - b'0',
        b'a'..=b'f' => byte - b'a' + 10,
        _ => 0,
    }
}

fn appended(number: u64, last: u8) -> u64 {
    if 1_844_674_407_370_955_161 < number {
        return number;
    }
    (number * 10).wrapping_add(last as u64)
}

pub(crate) fn number(text: &[u8]) -> u64 {
    text.iter()
        .fold(0, |number, byte| appended(number, digit(*byte)))
}

fn pair(high: u8, low: u8) -> u8 {
    digit(high) * 16 + digit(low)
}

fn hex_into(out: &mut [u8], text: &[u8]) -> usize {
    let count = text.len() / 2;
    if out.len() < count {
        return 0;
    }
    for (byte, digits) in out.iter_mut().zip(text.chunks_exact(2)) {
        *byte = pair(digits[0], digits[1]);
    }
    count
}

fn zeros_into(out: &mut [u8], count: usize) -> usize {
    word_write::write_zeros(out, count);
    count
}

// BYTES: hex, `-` or `zN`, over the front of `out`; how many they are.
pub(crate) fn bytes_into(out: &mut [u8], text: &[u8]) -> usize {
    match text {
        [] | [b'-', ..] => 0,
        [b'z', count @ ..] => zeros_into(out, number(count) as usize),
        _ => hex_into(out, text),
    }
}

// WORDS: numbers with commas between, or `-`, over the front of `out`; how many they are.
pub(crate) fn words_into(out: &mut [u64], text: &[u8]) -> usize {
    if matches!(text, [b'-']) {
        return 0;
    }
    let mut count: usize = 0;
    for (word, part) in out
        .iter_mut()
        .zip(text.split_inclusive(|byte| *byte == b','))
    {
        *word = number(part.strip_suffix(b",").unwrap_or(part));
        count = count.saturating_add(1);
    }
    count
}

// The first `count` words of a table, or all of it where it is shorter.
pub(crate) fn front<'a>(table: &'a [u64], count: usize) -> &'a [u64] {
    table.get(..count).unwrap_or(table)
}

// The words of so many entries, or more than any table has.
pub(crate) fn entries_words(entries: u64, entry_words: usize) -> usize
    requires { entry_words ≤ 5 }
{
    if entries < 0x1_0000_0000 {
        return entry_words * (entries as usize);
    }
    0xffff_ffff
}
