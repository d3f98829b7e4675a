// The checksum by four registers side by side, so that no word waits for the one before it: each register takes every
// fourth word and goes 32 bytes on. Bytes are copied on the same walk. What a checksum is stands in crc64's
// specs/Polynomial.antt.
#![tactic(auto)]

ghost use Rattle.std.specs.Prelude.{true, ◌≡◌, List, [], ◌∷◌, ℕ, ◌+◌, ◌-◌, ◌≤◌, length, take, drop};
ghost use borrow.Rule.Slice.PartMut.{mid_of, put_mid};
ghost use Rattle.words.specs.Decide.{pick};
ghost use Rattle.words.specs.Buffer.{over, fitted};
ghost use Rattle.words.specs.Stages.{Filling};
ghost use Rattle.crc64.specs.Table.{swapped};
ghost use Rattle.crc64_fast.specs.Statement.{Copies, FoldHeldIs};
ghost use Rattle.crc64_lanes.specs.Stages.{entering, waits};

use crc64_fast::fold_held;
use word_read::read_u64;

// From how many bytes on this pays, measured.
pub const LANES_FROM: usize = 96;

// Where no bytes are copied, each block's words are put here: so there is one loop, and nothing is asked in it.
type Scratch = [u8; 32];

// Four words, each taken by its own register, and put into `out` from `at` on. There is one call in an inner loop: no
// register waits for another, and the tables are read in place. Of eight bytes the compiler knows that they are there.
fn block(lanes: &mut [u64; 4], bytes: &[u8], i: usize, at: usize, out: &mut [u8])
    requires { (length lanes.old ≡ 4) × (i + 56 ≤ length bytes.now) × (at + 32 ≤ length out.old) }
    ensures { (length lanes.new ≡ 4)
        × (waits lanes.new (drop (i + 32) bytes.now)
        ≡ waits lanes.old (drop i bytes.now))
        × (length out.new ≡ length out.old)
        × (at ≡ i → (before : List ℕ)
        → Filling bytes.now (drop i bytes.now) before out.old i
        → Filling bytes.now (drop (i + 32) bytes.now) before out.new (i + 32)) }
{
    for l in 0..4 {
        let from = i + 8 * l;
        let word = read_u64(&bytes[from..from + 8], 0);
        let to = at + 8 * l;
        word_write::write_u64(&mut out[to..to + 8], word);
        lanes[l] = crc64_far::far(lanes[l] ^ word);
    }
}

// Three words as bytes.
type Words = [u8; 24];

// The end: each register enters at its word, three of them in one stretch.
fn joined(a: u64, b: u64, c: u64, d: u64, bytes: &[u8], i: usize) -> u64
    requires { i + 24 ≤ length bytes.now }
    ensures { result ≡ swapped 8
        (entering 0 (swapped 8 a ∷ swapped 8 b ∷ swapped 8 c ∷ swapped 8 d ∷ []) (drop i bytes.now)) }
{
    let second = i + 8;
    let third = i + 16;
    let mut words: Words = [0; 24];
    word_write::write_u64(&mut words[0..8], a ^ read_u64(&bytes[i..i + 8], 0));
    word_write::write_u64(
        &mut words[8..16],
        b ^ read_u64(&bytes[second..second + 8], 0),
    );
    word_write::write_u64(
        &mut words[16..24],
        c ^ read_u64(&bytes[third..third + 8], 0),
    );
    let before = fold_held(0, &words);
    fold_held(before ^ d, &bytes[i + 24..])
}

// The bytes from one place on, over `out` there, where they are copied. `copies` is a flag here and below, and no
// second function or closure: both ways share the one loop of `walk`, whose tables are read in place for that.
fn put_rest(bytes: &[u8], at: usize, copies: bool, out: &mut [u8])
    requires { (at ≤ length bytes.now) × (copies ≡ true → at ≤ length out.old) }
    ensures { (length out.new ≡ length out.old)
        × (copies ≡ true → out.new ≡ put_mid at (length out.old - at) out.old
        (fitted (take (length bytes.now - at) (drop at bytes.now))
        (mid_of at (length out.old - at) out.old))) }
{
    if copies {
        word_write::write_bytes(&mut out[at..], &bytes[at..]);
    }
}

// Where the words of the block at i are put: where they came from if they are copied, else at the front.
fn place(i: usize, copies: bool) -> usize
    ensures { result ≡ pick copies i 0 }
{
    if copies { i } else { 0 }
}

// The register, held byte-swapped, after the bytes, and the bytes over the front of `out` where they are copied; else
// `out` is where the words of a block are put.
fn walk(register: u64, bytes: &[u8], copies: bool, out: &mut [u8]) -> u64
    requires { (32 ≤ length bytes.now) × (32 ≤ length out.old)
        × (copies ≡ true → length bytes.now ≤ length out.old) }
    ensures { FoldHeldIs register bytes.now result
        × (copies ≡ true → out.new ≡ over bytes.now out.old) }
{
    let mut lanes = [register, 0, 0, 0];
    let mut i = 0;
    while 56 <= bytes.len() - i {
        block(&mut lanes, bytes, i, place(i, copies), out);
        i += 32;
    }
    put_rest(bytes, i, copies, out);
    joined(lanes[0], lanes[1], lanes[2], lanes[3], bytes, i)
}

// The register, held byte-swapped, after the bytes.
pub fn fold_lanes(register: u64, bytes: &[u8]) -> u64
    ensures { FoldHeldIs register bytes.now result }
{
    if bytes.len() < LANES_FROM {
        return fold_held(register, bytes);
    }
    let mut scratch: Scratch = [0; 32];
    walk(register, bytes, false, &mut scratch)
}

// The bytes over the front of `out`, and the register, held byte-swapped, after them. Where `out` has not the room
// nothing is written, and the register is the same.
pub fn copy_lanes(register: u64, bytes: &[u8], out: &mut [u8]) -> u64
    ensures { Copies register bytes.now out.old result out.new }
{
    if bytes.len() < LANES_FROM {
        return crc64_fast::copy_held(register, bytes, out);
    }
    if out.len() < bytes.len() {
        return fold_lanes(register, bytes);
    }
    walk(register, bytes, true, out)
}
