// Packing with links: each pair is found by a search along links that are kept in the spare bits of the table's words
// while the function runs, and are taken out before it returns.
#![tactic(auto)]

ghost use Rattle.std.specs.Prelude.{◌≡◌, ◌+◌, ◌*◌, ◌^◌, ◌<◌, ◌≤◌, ◌%◌, length};
ghost use Rattle.words.specs.Buffer.{over};
ghost use Rattle.wire.specs.Layout.{entry_words};
ghost use Rattle.wire_check.specs.Writing.{entries_in, first_bad};
ghost use Rattle.pack_pairs.specs.Packing.{capped};
ghost use Rattle.pack_pairs.specs.Stages.{same, needed, packed, packed_bytes, Inside};
ghost use Rattle.pack_answer.specs.Statement.{Packs};
ghost use Rattle.pack_links.specs.Statement.{plain};
ghost use Rattle.pack_links.specs.Stages.{link, settled, linked_to, word_for, room_for, Movable, Climbs, Finds, Looks, bucket, Spare, Linking};

use pack_answer::entry::{add_capped, cut, is_blob, is_stored};
use pack_links::{LINK, Place, unlink_all};
use pack_plain::pack_plain;
use wire::error::WireError;
use wire::layout::ENTRY_WORDS;
use wire_check::table::first_bad;
use word_write::write_bytes;
use words::outcome::{NoRoom, Room};

// Above 16 bits of a word, links to the entries of a table of fewer words have room.
const LINKED_WORDS: usize = 0x1_0000_0000_0000;

// The bytes of the area whose pairs share neighbouring buckets.
const BLOCK: u64 = 0x1_0000;

// Whether two entries have one pair of offset and length. An entry is its number, here and below, and each function
// requires that the table has it: links are such numbers, so that a slice of the entry would not do.
fn same_pair(values: &[u64], j: usize, i: usize) -> bool
    requires { (entry_words * j + entry_words ≤ length values.now)
        × (entry_words * i + entry_words ≤ length values.now) }
    ensures { result ≡ same values.now j i }
{
    values[ENTRY_WORDS * j + 3] == values[ENTRY_WORDS * i + 3]
        && values[ENTRY_WORDS * j + 4] == values[ENTRY_WORDS * i + 4]
}

// Along the links from the word `head`: the entry with the pair of the entry i, or the word over which to link i.
fn find(values: &[u64], i: usize, head: usize) -> Place
    requires { (entry_words * i + entry_words ≤ length values.now) × (head % entry_words ≡ 0)
        × (head < length values.now)
        × Climbs values.now }
    ensures { Finds values.now i head result }
{
    let mut slot = head;
    let mut x = values[ENTRY_WORDS * i + 3];
    let mut y = values[ENTRY_WORDS * i + 4];
    let mut link = values[slot] / LINK;
    while 0 < link {
        let k = (link - 1) as usize;
        if same_pair(values, k, i) {
            return Place::Known(k);
        }
        slot = ENTRY_WORDS * k + 1 + (x % 2) as usize;
        let z = x / 2;
        x = y;
        y = z;
        link = values[slot] / LINK;
    }
    Place::Free(slot)
}

// The word over which the tree of a pair's bucket is linked. Buckets of pairs that lie near each other lie near each
// other, so that a table in the order of its area is walked in that order; 64 KiB of the area make a block, and the
// blocks are scattered, so that pairs at equal distances do not share a few buckets.
fn bucket_word(offset: u64, length: u64, size: usize) -> usize
    requires { (0 < size) × (size < 2 ^ 48) }
    ensures { result ≡ bucket offset length size }
{
    let block = offset / BLOCK % 1048576 * 2654435769 / 1024;
    ENTRY_WORDS * ((block + offset / 16 + length % BLOCK) % (size as u64)) as usize
}

// Where the pair of the entry i belongs, if it stores one.
fn look(values: &[u64], i: usize) -> Option<Place>
    requires { (entry_words * i + entry_words ≤ length values.now) × (length values.now < 2 ^ 48)
        × Climbs values.now }
    ensures { Looks values.now i result }
{
    if is_stored(
        values[ENTRY_WORDS * i + 1] % LINK,
        values[ENTRY_WORDS * i + 4],
    ) {
        let head = bucket_word(
            values[ENTRY_WORDS * i + 3],
            values[ENTRY_WORDS * i + 4],
            values.len() / ENTRY_WORDS,
        );
        return Some(find(values, i, head));
    }
    None
}

// Links the entry k over the word s, which has no link.
fn put_link(values: &mut [u64], s: usize, k: usize)
    requires { (s < length values.old) × (link values.old s ≡ 0) × (k < 2 ^ 47) }
    ensures { values.new ≡ linked_to values.old s k }
{
    values[s] += LINK * (k as u64 + 1);
}

// Links each first use into its bucket and each other use to its first; the sum of the lengths of the first uses.
fn link_all(values: &mut [u64]) -> u64
    requires { Spare values.old }
    ensures { (result ≡ capped (needed values.old))
        × Linking values.old values.new (entries_in values.old) }
{
    let size = values.len() / ENTRY_WORDS;
    let mut sum = 0;
    for i in 0..size {
        match look(values, i) {
            None => {}
            Some(Place::Known(j)) => put_link(values, ENTRY_WORDS * i + 1, j),
            Some(Place::Free(s)) => {
                put_link(values, s, i);
                sum = add_capped(sum, values[ENTRY_WORDS * i + 4]);
            }
        }
    }
    sum
}

// The fourth word of the entry i after packing, where the next pair goes to `at`.
fn new_word(values: &[u64], i: usize, at: u64) -> u64
    requires { entry_words * i + entry_words ≤ length values.now }
    ensures { result ≡ word_for values.now i at }
{
    let kind = values[ENTRY_WORDS * i + 1] % LINK;
    let link = values[ENTRY_WORDS * i + 1] / LINK;
    let word = values[ENTRY_WORDS * i + 3];
    if !is_blob(kind) {
        return word;
    }
    if values[ENTRY_WORDS * i + 4] == 0 {
        return 0;
    }
    if link == 0 {
        return at;
    }
    if (i as u64) < link {
        return at;
    }
    values[ENTRY_WORDS * (link as usize - 1) + 3]
}

// Where the next pair goes behind the entry i.
fn next_at(values: &[u64], i: usize, at: u64) -> u64
    requires { (entry_words * i + entry_words ≤ length values.now) × (at + room_for values.now i < 2 ^ 64) }
    ensures { result ≡ at + room_for values.now i }
{
    let link = values[ENTRY_WORDS * i + 1] / LINK;
    if !is_stored(
        values[ENTRY_WORDS * i + 1] % LINK,
        values[ENTRY_WORDS * i + 4],
    ) {
        return at;
    }
    if link == 0 {
        return at + values[ENTRY_WORDS * i + 4];
    }
    if (i as u64) < link {
        return at + values[ENTRY_WORDS * i + 4];
    }
    at
}

// The words of the entry i without their links, the fourth being `word`.
fn settle(values: &mut [u64], i: usize, word: u64)
    requires { entry_words * i + entry_words ≤ length values.old }
    ensures { values.new ≡ settled values.old i word }
{
    let id = values[ENTRY_WORDS * i] % LINK;
    let kind = values[ENTRY_WORDS * i + 1] % LINK;
    let aggregate = values[ENTRY_WORDS * i + 2] % LINK;
    values[ENTRY_WORDS * i] = id;
    values[ENTRY_WORDS * i + 1] = kind;
    values[ENTRY_WORDS * i + 2] = aggregate;
    values[ENTRY_WORDS * i + 3] = word;
}

// Gives each blob its new offset, and takes all links out.
fn move_all(values: &mut [u64])
    requires { Movable (plain values.old) values.old }
    ensures { values.new ≡ packed (plain values.old) }
{
    let size = values.len() / ENTRY_WORDS;
    let mut at = 0;
    for i in 0..size {
        let next = next_at(values, i, at);
        let word = new_word(values, i, at);
        settle(values, i, word);
        at = next;
    }
}

// Copies each first use's bytes behind those before it.
fn copy_all(area: &[u8], values: &[u64], out: &mut [u8])
    requires movable { Movable (plain values.now) values.now }
    requires inside { Inside area.now (plain values.now) }
    requires values_in_bounds { needed (plain values.now) ≤ length out.old }
    ensures { out.new
        ≡ over (packed_bytes area.now (plain values.now) (entries_in (plain values.now)))
        out.old }
{
    let size = values.len() / ENTRY_WORDS;
    let mut at = 0;
    for i in 0..size {
        let next = next_at(values, i, at as u64) as usize;
        let bytes = cut(area, values[ENTRY_WORDS * i + 3], (next - at) as u64);
        write_bytes(&mut out[at..], bytes);
        at = next;
    }
}

// A table of so few words that passed rules 1 and 3.
fn pack_linked(area: &[u8], values: &mut [u64], out: &mut [u8]) -> Result<u64, WireError>
    requires { (length values.old % entry_words ≡ 0)
        × (entries_in values.old ≤ first_bad (length area.now) values.old)
        × (length values.old < 2 ^ 48) }
    ensures { Packs area.now values.old out.old result values.new
        out.new }
{
    let sum = link_all(values);
    if (out.len() as u64) < sum {
        unlink_all(values);
        return Err(WireError::NoRoom(NoRoom {
            room: Room::Output,
            needed: sum,
            given: out.len() as u64,
        }));
    }
    copy_all(area, values, out);
    move_all(values);
    Ok(sum)
}

// Packs the byte area behind a value table into a second one; a refusal leaves the table and the second area as they
// were.
pub fn pack(area: &[u8], values: &mut [u64], out: &mut [u8]) -> Result<u64, WireError>
    ensures { Packs area.now values.old out.old result values.new
        out.new }
{
    if LINKED_WORDS <= values.len() {
        return pack_plain(area, values, out);
    }
    let entries = values.len() / ENTRY_WORDS;
    if values.len() % ENTRY_WORDS != 0 {
        return Err(WireError::BadTable {
            rule: 1,
            position: entries,
        });
    }
    let bad = first_bad(area, values);
    if bad < entries {
        return Err(WireError::BadTable {
            rule: 3,
            position: bad,
        });
    }
    pack_linked(area, values, out)
}
