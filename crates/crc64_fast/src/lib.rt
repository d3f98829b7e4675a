// The checksum with nothing laid out: one to eight bytes first, so that whole words are left, and then eight bytes at a
// step; and bytes copied on the same walk, where each is loaded once, and what is stored and what is folded is what was
// loaded. What a checksum is stands in crc64's specs/Polynomial.antt.
#![tactic(auto)]

ghost use Rattle.std.specs.Prelude.{false, ◌≡◌, ◌+◌, ◌-◌, ◌≤◌, ◌<◌, length, take};
ghost use borrow.Rule.Slice.PartMut.{mid_of, put_mid};
ghost use Rattle.words.specs.Word.{word, bytes_of};
ghost use Rattle.words.specs.Decide.{pick};
ghost use Rattle.words.specs.Buffer.{over, fitted};
ghost use Rattle.crc64_fast.specs.Statement.{Copies, FoldHeldIs, FoldFastIs};

// The lowest `count` bytes of the word, over the front of `out`.
fn write_low(word: u64, count: usize, out: &mut [u8])
    requires { (count ≤ 8) × (count ≤ length out.old) }
    ensures { out.new ≡ over (bytes_of count word) out.old }
{
    out[..count].copy_from_slice(&word.to_le_bytes()[..count]);
}

// The first bytes as a word, of which so many count; over the front of `out`, but where that is too short for all.
// Where they are copied, no byte is loaded that belongs to the next word. `short` is a flag here and below, and no
// second function or closure: both ways share the one loop of `copy_held`, whose tables are read in place for that.
fn first_word(bytes: &[u8], count: usize, short: bool, out: &mut [u8]) -> u64
    requires { (count ≤ 8) × (count ≤ length bytes.now) × (short ≡ false → count ≤ length out.old) }
    ensures { (result ≡ pick short (word 8 bytes.now 0) (word 8 (take count bytes.now) 0))
        × (out.new ≡ pick short out.old (over (bytes_of count result) out.old)) }
{
    if short {
        return word_read::read_u64(bytes, 0);
    }
    let word = word_read::read_u64(&bytes[..count], 0);
    write_low(word, count, out);
    word
}

// The word at i; over `out` at i, but where that is too short for all.
fn next_word(bytes: &[u8], i: usize, short: bool, out: &mut [u8]) -> u64
    requires { short ≡ false → i ≤ length out.old }
    ensures { (result ≡ word 8 bytes.now i)
        × (out.new ≡ pick short out.old (put_mid i (length out.old - i) out.old
        (fitted (bytes_of 8 result) (mid_of i (length out.old - i) out.old)))) }
{
    let word = word_read::read_u64(bytes, i);
    if short {
        return word;
    }
    word_write::write_u64(&mut out[i..], word);
    word
}

// The bytes over the front of `out`, and the register, held byte-swapped, after them. Where `out` has not the room
// nothing is written, and the register is the same. The first stretch is moved up by the bytes that it lacks of a word,
// and what it leaves of the register is kept beside: so it goes through the loop's one call, whose tables are then read
// in place.
pub fn copy_held(register: u64, bytes: &[u8], out: &mut [u8]) -> u64
    ensures { Copies register bytes.now out.old result out.new }
{
    if bytes.len() == 0 {
        return register;
    }
    let short = out.len() < bytes.len();
    let more = (bytes.len() - 1) % 8;
    let first = first_word(bytes, more + 1, short, out);
    let mut x = (register ^ first) << (56 - 8 * more);
    let mut kept = (register >> 8) >> (8 * more);
    let mut i = more + 1;
    loop {
        let folded = crc64_near::near(x) ^ kept;
        if bytes.len() - i < 8 {
            return folded;
        }
        x = folded ^ next_word(bytes, i, short, out);
        kept = 0;
        i += 8;
    }
}

// The register, held byte-swapped, after the bytes.
pub fn fold_held(register: u64, bytes: &[u8]) -> u64
    ensures { FoldHeldIs register bytes.now result }
{
    let mut nowhere = [0u8; 0];
    copy_held(register, bytes, &mut nowhere)
}

// The same by value: the register after the bytes, both of them the polynomial's own, not byte-swapped.
pub fn fold_fast(register: u64, bytes: &[u8]) -> u64
    ensures { FoldFastIs register bytes.now result }
{
    crc64::swap_bytes(fold_held(crc64::swap_bytes(register), bytes))
}
