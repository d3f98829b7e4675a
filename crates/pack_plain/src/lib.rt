// Packing that looks for each pair among all earlier entries. It is for tables too long for links; no memory holds
// one.
#![tactic(auto)]

ghost use Rattle.std.specs.Prelude.{◌≡◌, ◌&&◌, ◌+◌, ◌*◌, ◌%◌, ◌^◌, ◌<◌, ◌≤◌, length};
ghost use Rattle.words.specs.Buffer.{over};
ghost use Rattle.wire.specs.Layout.{entry_words};
ghost use Rattle.wire_check.specs.Writing.{entries_in};
ghost use Rattle.pack_pairs.specs.Pairs.{stored};
ghost use Rattle.pack_pairs.specs.Packing.{capped};
ghost use Rattle.pack_pairs.specs.Stages.{same, first_use, room_of, room, new_offset, new_word, packed, packed_bytes, needed, Inside};
ghost use Rattle.pack_answer.specs.Statement.{Packs};

use pack_answer::entry::{add_capped, cut, is_blob, is_stored};
use wire::error::WireError;
use wire::layout::ENTRY_WORDS;
use wire_check::table::first_bad;
use word_write::write_bytes;
use words::outcome::{NoRoom, Room};

// Whether the entry j stores the pair of the entry i.
fn uses(values: &[u64], j: usize, i: usize) -> bool
    requires { (entry_words * j + entry_words ≤ length values.now)
        × (entry_words * i + entry_words ≤ length values.now) }
    ensures { result ≡ (stored values.now j && same values.now j i) }
{
    if !is_stored(values[ENTRY_WORDS * j + 1], values[ENTRY_WORDS * j + 4]) {
        return false;
    }
    if values[ENTRY_WORDS * j + 3] != values[ENTRY_WORDS * i + 3] {
        return false;
    }
    values[ENTRY_WORDS * j + 4] == values[ENTRY_WORDS * i + 4]
}

// The first entry that stores the pair of the entry i: one before it, else i itself.
fn first_use(values: &[u64], i: usize) -> usize
    requires { entry_words * i + entry_words ≤ length values.now }
    ensures { result ≡ first_use values.now i }
{
    for j in 0..i {
        if uses(values, j, i) {
            return j;
        }
    }
    i
}

// The length of the entry's pair where it is new, else 0.
fn room_of(values: &[u64], i: usize) -> u64
    requires { entry_words * i + entry_words ≤ length values.now }
    ensures { result ≡ room_of values.now i }
{
    if !is_stored(values[ENTRY_WORDS * i + 1], values[ENTRY_WORDS * i + 4]) {
        return 0;
    }
    if first_use(values, i) != i {
        return 0;
    }
    values[ENTRY_WORDS * i + 4]
}

// The lengths of the distinct pairs among the first n entries, at most 2^64-1. No slice of these entries: `room`, and
// with it the laws of packing, is told of the whole table and a count.
fn room_before(values: &[u64], n: usize) -> u64
    requires { entry_words * n ≤ length values.now }
    ensures { result ≡ capped (room values.now n) }
{
    let mut sum = 0;
    for i in 0..n {
        sum = add_capped(sum, room_of(values, i));
    }
    sum
}

// The fourth word of the entry i after packing.
fn new_word(values: &[u64], i: usize) -> u64
    requires { (entry_words * i + entry_words ≤ length values.now) × (new_offset values.now i < 2 ^ 64) }
    ensures { result ≡ new_word values.now i }
{
    if !is_blob(values[ENTRY_WORDS * i + 1]) {
        return values[ENTRY_WORDS * i + 3];
    }
    if values[ENTRY_WORDS * i + 4] == 0 {
        return 0;
    }
    room_before(values, first_use(values, i))
}

// Gives each blob its new offset, from the last entry to the first, since a new word asks for earlier ones as they
// were.
fn move_all(values: &mut [u64])
    requires { (length values.old % entry_words ≡ 0) × (needed values.old < 2 ^ 64) }
    ensures { values.new ≡ packed values.old }
{
    for i in (0..values.len() / ENTRY_WORDS).rev() {
        values[ENTRY_WORDS * i + 3] = new_word(values, i);
    }
}

// Copies each first use's bytes behind those before it.
fn copy_all(area: &[u8], values: &[u64], out: &mut [u8])
    requires { Inside area.now values.now × (needed values.now ≤ length out.old) }
    ensures { out.new
        ≡ over (packed_bytes area.now values.now (entries_in values.now))
        out.old }
{
    let size = values.len() / ENTRY_WORDS;
    let mut at = 0;
    for i in 0..size {
        let n = room_of(values, i);
        let bytes = cut(area, values[ENTRY_WORDS * i + 3], n);
        write_bytes(&mut out[at..], bytes);
        at += n as usize;
    }
}

// Packs a table of any length; a refusal leaves the table and the second area as they were.
pub fn pack_plain(area: &[u8], values: &mut [u64], out: &mut [u8]) -> Result<u64, WireError>
    ensures { Packs area.now values.old out.old result values.new
        out.new }
{
    let entries = values.len() / ENTRY_WORDS;
    if values.len() % ENTRY_WORDS != 0 {
        return Err(WireError::BadTable {
            rule: 1,
            position: entries,
        });
    }
    let bad = first_bad(area, values);
    if bad < entries {
        return Err(WireError::BadTable {
            rule: 3,
            position: bad,
        });
    }
    let sum = room_before(values, entries);
    if (out.len() as u64) < sum {
        return Err(WireError::NoRoom(NoRoom {
            room: Room::Output,
            needed: sum,
            given: out.len() as u64,
        }));
    }
    copy_all(area, values, out);
    move_all(values);
    Ok(sum)
}
