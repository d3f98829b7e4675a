// The second walk, over a text that the first has found good and for which there is room: the tables and the area are
// filled. The loops but that of `read_id` step by what they read, a line, a value or a blob's byte: no range counts
// them.
ghost use Rattle.std.specs.Prelude.{◌≡◌, ◌+◌, ◌≤◌, length};
ghost use Rattle.text_form.specs.Walk.{capital_value};
ghost use Rattle.text_read.specs.Stages.{HasNumber, ReadsId, HasLetter, ReadsLetter, ReadsHead};
ghost use Rattle.text_read.specs.Stages.{Digits, digit_values, spelling, HasWord, ReadsWord};
ghost use Rattle.text_read.specs.Stages.{HasEscape, ReadsEscape, HasBlob, CopiesUnits, HasContent, ReadsContent};
ghost use Rattle.text_read.specs.Stages.{HasValue, FillsValue, HasValues, HasLine, FillsLine, HasText, FillsText};

use text_spell::type_of;
use wire::kind::{Kind, kind_of};
use wire::layout::{ENTRY_WORDS, NULL_ROW_MARKER};
use word_read::read_u64;

// Where a piece ends, and the number that it spells.
#[derive(Clone, Copy)]
pub(crate) struct Number {
    pub(crate) next: usize,
    pub(crate) value: u64,
}

// Id, aggregate and type of a value, and where its content begins. A type is its code, here and below: so it goes to
// the lent table (see wire's `kind`).
#[derive(Clone, Copy)]
pub(crate) struct Head {
    pub(crate) next: usize,
    pub(crate) id: u64,
    pub(crate) aggregate: u64,
    pub(crate) kind: u64,
}

// Where a blob's text ends, and the byte of the area behind the blob.
#[derive(Clone, Copy)]
pub(crate) struct Copied {
    pub(crate) next: usize,
    pub(crate) used: usize,
}

// Where a value's text ends, the last two words of its entry, and the byte of the area behind its blob.
#[derive(Clone, Copy)]
pub(crate) struct Payload {
    pub(crate) next: usize,
    pub(crate) used: usize,
    pub(crate) fourth: u64,
    pub(crate) fifth: u64,
}

// Where the text behind a value goes on, the byte of the area behind its blob, and whether its line has ended.
#[derive(Clone, Copy)]
pub(crate) struct Value {
    pub(crate) next: usize,
    pub(crate) used: usize,
    pub(crate) last: bool,
}

// Where the next line begins, the next words of the value table and of the area, and the row's own word.
#[derive(Clone, Copy)]
pub(crate) struct Line {
    pub(crate) next: usize,
    pub(crate) k: usize,
    pub(crate) used: usize,
    pub(crate) word: u64,
}

// The rest of an id whose digits so far spell `first`, up to its colon.
fn read_id(text: &[u8], start: usize, first: u64) -> Number
    requires { HasNumber text.now start first }
    ensures { ReadsId text.now start first result }
{
    let mut id = first;
    for at in start..text.len() {
        let byte = text[at];
        if byte == b':' {
            return Number {
                next: at + 1,
                value: id,
            };
        }
        id = id * 10 + (byte - b'0') as u64;
    }
    Number {
        next: text.len(),
        value: id,
    }
}

// A type's letter, behind the colon or behind the aggregate's sign.
fn read_letter(text: &[u8], at: usize, id: u64, aggregate: u64) -> Head
    requires { HasLetter text.now at id aggregate }
    ensures { ReadsLetter text.now at id aggregate result }
{
    Head {
        next: at + 1,
        id,
        aggregate,
        kind: type_of(text[at]),
    }
}

// The rest of an id, the aggregate's sign and the type's letter.
fn read_head(text: &[u8], start: usize, first: u64) -> Head
    requires { HasNumber text.now start first }
    ensures { ReadsHead text.now start first result }
{
    let number = read_id(text, start, first);
    let at = number.next;
    if text[at] == b'!' {
        return read_letter(text, at + 1, number.value, 1);
    }
    read_letter(text, at, number.value, 0)
}

// The values of eight digits, each in the byte that its digit has in a word: a letter has the bit 64 and lies 39 behind
// the digit that would follow 9.
fn digit_values(text: &[u8], at: usize) -> u64
    requires { (at + 8 ≤ length text.now) × Digits 8 text.now at }
    ensures { result ≡ digit_values 8 text.now at }
{
    let word = read_u64(&text[at..at + 8], 0);
    let letters = (word & 0x4040_4040_4040_4040) / 64;
    word - 0x3030_3030_3030_3030 - 39 * letters
}

// The number that eight digits spell. Each byte of `pairs` is 16 times a digit and the next, so no carry leaves it;
// every other one is wanted.
fn eight_digits(text: &[u8], at: usize) -> u64
    requires { (at + 8 ≤ length text.now) × Digits 8 text.now at }
    ensures { result ≡ spelling 8 text.now at 0 }
{
    let values = digit_values(text, at);
    let pairs = values * 16 + values / 256;
    let second = pairs / 65536;
    let third = second / 65536;
    let fourth = third / 65536;
    (pairs % 256) * 16777216 + (second % 256) * 65536 + (third % 256) * 256 + fourth % 256
}

// The sixteen digits of a scalar's word.
fn read_word(text: &[u8], start: usize, kind: u64) -> u64
    requires { HasWord text.now start kind }
    ensures { ReadsWord text.now start kind result }
{
    eight_digits(text, start) * 4294967296 + eight_digits(text, start + 8)
}

// The value of a byte that is a hex digit, its letters capital. It has no test, for digits come as they will. That of
// `numerals` answers for every byte, either case and none, by a test and a table: work that is not wanted here.
fn digit_value(byte: u8) -> u8
    requires { capital_value byte ≤ 15 }
    ensures { result ≡ capital_value byte }
{
    byte % 16 + 9 * (byte / 64)
}

// The byte that the two digits behind a percent sign spell.
fn read_escape(text: &[u8], at: usize) -> u8
    requires { HasEscape text.now at }
    ensures { ReadsEscape text.now at result }
{
    digit_value(text[at]) * 16 + digit_value(text[at + 1])
}

// A blob's bytes, to the byte `first` of the area on.
fn copy_units(text: &[u8], start: usize, area: &mut [u8], first: usize) -> Copied
    requires { HasBlob text.now start first area.old }
    ensures { CopiesUnits text.now start first area.old area.new result }
{
    let mut at = start;
    let mut used = first;
    while at < text.len() {
        let byte = text[at];
        if byte == b'%' {
            area[used] = read_escape(text, at + 1);
            used += 1;
            at += 3;
            continue;
        }
        if byte == b'\t' || byte == b'\n' {
            return Copied { next: at, used };
        }
        area[used] = byte;
        used += 1;
        at += 1;
    }
    Copied { next: at, used }
}

// What stands behind a type's letter; a blob goes to the byte `used` of the area on. The area is lent whole, here and
// below: the entry names where in it the blob begins, so a slice from `used` on would need `used` beside it as well.
fn read_payload(text: &[u8], at: usize, kind: u64, area: &mut [u8], used: usize) -> Payload
    requires { HasContent text.now at kind used area.old }
    ensures { ReadsContent text.now at kind used area.old area.new result }
{
    match kind_of(kind) {
        Kind::Null | Kind::Unknown => Payload {
            next: at,
            used,
            fourth: 0,
            fifth: 0,
        },
        Kind::Scalar => {
            let word = read_word(text, at, kind);
            Payload {
                next: at + 16,
                used,
                fourth: word,
                fifth: 0,
            }
        }
        Kind::Blob => {
            let copied = copy_units(text, at, area, used);
            Payload {
                next: copied.next,
                used: copied.used,
                fourth: used as u64,
                fifth: (copied.used - used) as u64,
            }
        }
    }
}

// A value whose id begins with `first`, and the byte behind it: its entry to the word `k` of the table on. The tables,
// the area and how far each is filled are parameters of their own, here and in the two functions below: the clauses say
// of each slice by its name what it was and what it is.
fn fill_value(
    text: &[u8],
    at: usize,
    first: u64,
    values: &mut [u64],
    k: usize,
    area: &mut [u8],
    used: usize,
) -> Value
    requires { HasValue text.now at first values.old k area.old used }
    ensures { FillsValue text.now at first k used values.old area.old values.new
        area.new result }
{
    let head = read_head(text, at, first);
    let payload = read_payload(text, head.next, head.kind, area, used);
    values[k] = head.id;
    values[k + 1] = head.kind;
    values[k + 2] = head.aggregate;
    values[k + 3] = payload.fourth;
    values[k + 4] = payload.fifth;
    let end = payload.next;
    Value {
        next: end + 1,
        used: payload.used,
        last: text[end] == b'\n',
    }
}

// The values of a line whose first byte is a digit.
fn fill_values(
    text: &[u8],
    start: usize,
    values: &mut [u64],
    first: usize,
    area: &mut [u8],
    before: usize,
) -> Line
    requires { HasValues text.now start values.old first area.old before }
    ensures { FillsLine text.now start first before values.old area.old
        values.new area.new result }
{
    let mut at = start;
    let mut k = first;
    let mut used = before;
    let mut count: u64 = 0;
    while at < text.len() {
        let value = fill_value(
            text,
            at + 1,
            (text[at] - b'0') as u64,
            values,
            k,
            area,
            used,
        );
        at = value.next;
        k += ENTRY_WORDS;
        used = value.used;
        count += 1;
        if value.last {
            return Line {
                next: at,
                k,
                used,
                word: count,
            };
        }
    }
    Line {
        next: at,
        k,
        used,
        word: count,
    }
}

// One line: that of an empty row, of a null row, or the values of a row.
fn fill_line(
    text: &[u8],
    at: usize,
    values: &mut [u64],
    k: usize,
    area: &mut [u8],
    used: usize,
) -> Line
    requires { HasLine text.now at values.old k area.old used }
    ensures { FillsLine text.now at k used values.old area.old values.new
        area.new result }
{
    match text[at] {
        b'\n' => Line {
            next: at + 1,
            k,
            used,
            word: 0,
        },
        b'#' => Line {
            next: at + 2,
            k,
            used,
            word: NULL_ROW_MARKER,
        },
        _ => fill_values(text, at, values, k, area, used),
    }
}

// Both tables and the area, from their fronts.
pub(crate) fn fill_text(text: &[u8], rows: &mut [u64], values: &mut [u64], area: &mut [u8])
    requires { HasText text.now rows.old values.old area.old }
    ensures { FillsText text.now rows.old values.old area.old rows.new
        values.new area.new }
{
    let mut at = 0;
    let mut row = 0;
    let mut k = 0;
    let mut used = 0;
    while at < text.len() {
        let line = fill_line(text, at, values, k, area, used);
        rows[row] = line.word;
        row += 1;
        at = line.next;
        k = line.k;
        used = line.used;
    }
}
