// The checksum of long strings by a sparse multiple of its polynomial: all but the last 1,856 bytes leave by exclusive
// ors of whole bytes, and what they owe is paid in the last ones. The law is crc64_sparse's. The window holds the bytes
// that left last, and room for a block more.
#![tactic(auto)]

ghost use Rattle.crc64_sparse.specs.Stages.{span, places, xor_front, owed, filled};
ghost use Rattle.crc64_long.specs.Stages.{block_size, window_size};
ghost use Rattle.std.specs.Prelude.{true, ◌≡◌, ◌+◌, ◌-◌, ◌≤◌, ◌<◌, length, take, drop};
ghost use borrow.Rule.Slice.PartMut.{mid_of, put_mid};
ghost use Rattle.words.specs.Buffer.{over, fitted};
ghost use Rattle.crc64_fast.specs.Statement.{Copies};
ghost use Rattle.crc64_long.specs.Statement.{FoldLongIs};
ghost use Rattle.crc64.specs.Polynomial.{fold};

// How many bytes a byte that leaves is still owed to.
const SPAN: usize = 1856;

// How many bytes leave before the window is moved.
const BLOCK: usize = 4096;

// The window: the bytes that left last, and a block.
const WINDOW: usize = 5952;

// From how many bytes on this pays, measured: where they are folded, and where they are copied too.
pub const LONG_FROM: usize = 4096;

pub const COPY_LONG_FROM: usize = 5120;

type Window = [u8; WINDOW];

type Tail = [u8; SPAN];

// The next `count` bytes leave. Here and below window, bytes and count are no struct: the window is written, the bytes
// are only read, and the count is less than theirs, since the last ones are the tail's. The clauses ask for the lengths
// that the types tell, since the laws are of lists.
fn leave(window: &mut Window, bytes: &[u8], at: usize, count: usize)
    requires { (length window.old ≡ window_size) × (count ≤ block_size) × (at + count ≤ length bytes.now) }
    ensures { (length window.new ≡ window_size)
        × (take (span + count) window.new
        ≡ filled count (take span window.old) (drop at bytes.now)) }
{
    for k in 0..count {
        window[SPAN + k] = window[k]
            ^ (window[236 + k]
                ^ (window[256 + k]
                    ^ (window[753 + k]
                        ^ (window[1180 + k]
                            ^ (window[1310 + k] ^ (window[1556 + k] ^ bytes[at + k]))))));
    }
}

// The bytes that left last come to the front.
fn shift(window: &mut Window, count: usize)
    requires { (length window.old ≡ window_size) × (count ≤ block_size) }
    ensures { (length window.new ≡ window_size)
        × (take span window.new ≡ take span (drop count window.old)) }
{
    window.copy_within(count..count + SPAN, 0);
}

// What is owed from one place on is paid.
fn pay(window: &Window, tail: &mut Tail, place: usize)
    requires { (length window.now ≡ window_size) × (length tail.old ≡ span) × (place ≤ span) }
    ensures { (length tail.new ≡ span)
        × (tail.new ≡ xor_front (drop place (take span window.now)) tail.old) }
{
    for k in 0..SPAN - place {
        tail[k] = window[place + k] ^ tail[k];
    }
}

// The bytes of the next block.
fn block(left: usize) -> usize
    ensures { (result ≤ block_size) × (result ≤ left) × (0 < left → 0 < result) }
{
    if left < BLOCK { left } else { BLOCK }
}

// The first `count` bytes leave, block by block.
fn leave_all(window: &mut Window, bytes: &[u8], count: usize)
    requires { (length window.old ≡ window_size) × (count + span ≤ length bytes.now) }
    ensures { (length window.new ≡ window_size)
        × (fold 0 (owed places (take span window.new) (drop count bytes.now))
        ≡ fold 0 (owed places (take span window.old) bytes.now)) }
{
    let mut i = 0;
    while i < count {
        let next = block(count - i);
        leave(window, bytes, i, next);
        shift(window, next);
        i += next;
    }
}

// The first `count` bytes leave, block by block, each out of its copy.
fn leave_copied(window: &mut Window, bytes: &[u8], count: usize, out: &mut [u8])
    requires { (length window.old ≡ window_size) × (count + span ≤ length bytes.now)
        × (length bytes.now ≤ length out.old) }
    ensures { (length window.new ≡ window_size)
        × (fold 0 (owed places (take span window.new) (drop count bytes.now))
        ≡ fold 0 (owed places (take span window.old) bytes.now))
        × (out.new ≡ over (take count bytes.now) out.old) }
{
    let mut i = 0;
    while i < count {
        let next = block(count - i);
        word_write::write_bytes(&mut out[i..], &bytes[i..i + next]);
        leave(window, out, i, next);
        shift(window, next);
        i += next;
    }
}

// The last bytes, as many as the tail has.
fn last(bytes: &[u8], tail: &mut Tail)
    requires { (length tail.old ≡ span) × (span ≤ length bytes.now) }
    ensures { (length tail.new ≡ span)
        × (tail.new ≡ drop (length bytes.now - span) bytes.now) }
{
    tail.copy_from_slice(&bytes[bytes.len() - SPAN..]);
}

// All that is owed is paid.
fn pay_all(window: &Window, tail: &mut Tail)
    requires { (length window.now ≡ window_size) × (length tail.old ≡ span) }
    ensures { (length tail.new ≡ span)
        × (tail.new ≡ owed places (take span window.now) tail.old) }
{
    pay(window, tail, 1556);
    pay(window, tail, 1310);
    pay(window, tail, 1180);
    pay(window, tail, 753);
    pay(window, tail, 256);
    pay(window, tail, 236);
    pay(window, tail, 0);
}

// The first `count` bytes leave; where they are copied, over the front of `out`, and out of their copies. `copies` is a
// flag here and below, and no second function or closure: both ways share `walk`, which is so called from two places.
fn leave_first(window: &mut Window, bytes: &[u8], count: usize, copies: bool, out: &mut [u8])
    requires { (length window.old ≡ window_size) × (count + span ≤ length bytes.now)
        × (copies ≡ true → length bytes.now ≤ length out.old) }
    ensures { (length window.new ≡ window_size)
        × (fold 0 (owed places (take span window.new) (drop count bytes.now))
        ≡ fold 0 (owed places (take span window.old) bytes.now))
        × (length out.new ≡ length out.old)
        × (copies ≡ true → out.new ≡ over (take count bytes.now) out.old) }
{
    if copies {
        leave_copied(window, bytes, count, out);
        return;
    }
    leave_all(window, bytes, count);
}

// The last bytes behind the others, where they are copied.
fn put_last(tail: &Tail, at: usize, copies: bool, out: &mut [u8])
    requires { (length tail.now ≡ span) × (copies ≡ true → at ≤ length out.old) }
    ensures { (length out.new ≡ length out.old)
        × (copies ≡ true → out.new ≡ put_mid at (length out.old - at) out.old
        (fitted tail.now (mid_of at (length out.old - at) out.old))) }
{
    if copies {
        word_write::write_bytes(&mut out[at..], tail);
    }
}

// The register, held byte-swapped, after the bytes, and the bytes over the front of `out` where they are copied. It is
// called from two places, so that its window is laid out for long strings alone.
fn walk(register: u64, bytes: &[u8], copies: bool, out: &mut [u8]) -> u64
    requires { (span ≤ length bytes.now) × (copies ≡ true → length bytes.now ≤ length out.old) }
    ensures { FoldLongIs register bytes.now result
        × (copies ≡ true → out.new ≡ fitted bytes.now out.old) }
{
    let mut window: Window = [0; WINDOW];
    word_write::write_u64(&mut window, register);
    let count = bytes.len() - SPAN;
    leave_first(&mut window, bytes, count, copies, out);
    let mut tail: Tail = [0; SPAN];
    last(bytes, &mut tail);
    put_last(&tail, count, copies, out);
    pay_all(&window, &mut tail);
    crc64_lanes::fold_lanes(0, &tail)
}

// The register, held byte-swapped, after the bytes, however many.
pub fn fold_long(register: u64, bytes: &[u8]) -> u64
    ensures { FoldLongIs register bytes.now result }
{
    if bytes.len() < LONG_FROM {
        return crc64_fast::fold_held(register, bytes);
    }
    let mut nowhere = [0u8; 0];
    walk(register, bytes, false, &mut nowhere)
}

// The bytes over the front of `out`, and the register, held byte-swapped, after them, however many. Where `out` has not
// the room nothing is written, and the register is the same. Strings for four registers are left to the caller: what is
// called from one place alone is compiled into it.
pub fn copy_long(register: u64, bytes: &[u8], out: &mut [u8]) -> u64
    ensures { Copies register bytes.now out.old result out.new }
{
    if bytes.len() < LONG_FROM {
        return crc64_fast::copy_held(register, bytes, out);
    }
    if out.len() < bytes.len() {
        return crc64_fast::copy_held(register, bytes, out);
    }
    walk(register, bytes, true, out)
}
