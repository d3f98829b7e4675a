// YSON's binary form (document 02, A4): whether bytes are one node within 64 open brackets, where they fail, and
// where the items of an outer map begin and end. Node, object, list and pairs call each other, and the remaining depth
// falls. `at` and `depth` stay beside the input, here and below: refusals tell places in the whole input, and the depth
// is the measure of the recursion.
#![tactic(auto)]

ghost use Rattle.std.specs.Prelude.{◌≡◌, ◌+◌, ◌<◌, ◌≤◌, length};
ghost use Rattle.yson_token.specs.Token.{square, closing};
ghost use Rattle.yson_grammar.specs.Stages as Machine;
ghost use Rattle.yson.specs.Statement.{Checks, Lists, Breaks};
ghost use Rattle.yson.specs.Stages.{keyed, Reads, ReadsItems, ReadsPair, ReadsWhole, Stores, Ready, Fills};

use words::outcome::{NoRoom, Room};
use yson_token::{byte_at, key, scalar};

// How many brackets may be open at once.
const DEPTH: usize = 64;

// An item of an outer map has four words in a table: where its key begins and ends, where its value begins and ends.
const WORDS: usize = 4;

// 20 and 21, with the place: the failing token's start, or the input's length.
#[derive(Clone, Copy)]
pub enum Fault {
    BadYson(usize),
    TooDeep(usize),
}

// Why the items of an outer map are not listed: 20 and 21, or 17.
#[derive(Clone, Copy)]
pub enum YsonError {
    Broken(Fault),
    Short(NoRoom),
}

// A fault is why nothing is listed.
impl From<Fault> for YsonError {
    ghost from_gives = { λ fault error. Breaks fault error };

    fn from(fault: Fault) -> YsonError {
        YsonError::Broken(fault)
    }
}

// Where it ends; where the pairs of its map begin and how many they are, both 0 where it is no map.
#[derive(Clone, Copy)]
pub(crate) struct Read {
    pub(crate) end: usize,
    pub(crate) start: usize,
    pub(crate) items: usize,
}

// Where a pair's key ends, and where its value ends.
#[derive(Clone, Copy)]
pub(crate) struct PairRead {
    pub(crate) middle: usize,
    pub(crate) end: usize,
}

// What ends there and is no map.
fn no_map(end: usize) -> Read
    ensures { result ≡ record { end = end; start = 0; items = 0 } }
{
    Read {
        end,
        start: 0,
        items: 0,
    }
}

// What stands behind attributes, or alone.
#[cycle(list_node_object_pair_pairs)]
fn object(s: &[u8], at: usize, depth: usize) -> Result<Read, Fault>
    ensures { Reads s.now depth Machine.object at result }
{
    match byte_at(s, at) {
        b'[' => {
            if depth == 0 {
                return Err(Fault::TooDeep(at));
            }
            list(s, at + 1, depth - 1)
        }
        b'{' => {
            if depth == 0 {
                return Err(Fault::TooDeep(at));
            }
            pairs(s, at + 1, depth - 1, b'}')
        }
        _ => {
            let end = scalar(s, at).ok_or(Fault::BadYson(at))?;
            Ok(no_map(end))
        }
    }
}

// An object, with attributes before it or none.
#[cycle(list_node_object_pair_pairs)]
fn node(s: &[u8], at: usize, depth: usize) -> Result<Read, Fault>
    ensures { Reads s.now depth Machine.node at result }
{
    if byte_at(s, at) != b'<' {
        return object(s, at, depth);
    }
    if depth == 0 {
        return Err(Fault::TooDeep(at));
    }
    let attributes = pairs(s, at + 1, depth - 1, b'>')?;
    object(s, attributes.end, depth)
}

// The nodes of a list, up to and with its end.
#[cycle(list_node_object_pair_pairs)]
fn list(s: &[u8], start: usize, depth: usize) -> Result<Read, Fault>
    ensures { ReadsItems s.now square depth start result }
{
    let mut item = start;
    loop {
        if byte_at(s, item) == b']' {
            return Ok(no_map(item + 1));
        }
        let Read { end, .. } = node(s, item, depth)?;
        match byte_at(s, end) {
            b']' => return Ok(no_map(end + 1)),
            b';' => item = end + 1,
            _ => return Err(Fault::BadYson(end)),
        }
    }
}

// One pair of a map or of attributes: a key, the equals sign, a node.
#[cycle(list_node_object_pair_pairs)]
fn pair(s: &[u8], at: usize, depth: usize) -> Result<PairRead, Fault>
    ensures { ReadsPair s.now depth at result }
{
    let middle = key(s, at).ok_or(Fault::BadYson(at))?;
    if byte_at(s, middle) != b'=' {
        return Err(Fault::BadYson(middle));
    }
    let Read { end, .. } = node(s, middle + 1, depth)?;
    Ok(PairRead { middle, end })
}

// The pairs of a map or of attributes, up to and with their end.
#[cycle(list_node_object_pair_pairs)]
fn pairs(s: &[u8], start: usize, depth: usize, close: u8) -> Result<Read, Fault>
    requires { closing (keyed close) ≡ close }
    ensures { ReadsItems s.now (keyed close) depth start result }
{
    let mut at = start;
    let mut items: usize = 0;
    loop {
        if byte_at(s, at) == close {
            return Ok(Read {
                end: at + 1,
                start,
                items,
            });
        }
        let PairRead { end, .. } = pair(s, at, depth)?;
        let mark = byte_at(s, end);
        if mark == close {
            return Ok(Read {
                end: end + 1,
                start,
                items: items + 1,
            });
        }
        if mark != b';' {
            return Err(Fault::BadYson(end));
        }
        at = end + 1;
        items += 1;
    }
}

// The input as one node with nothing behind it.
fn whole(s: &[u8]) -> Result<Read, Fault>
    ensures { ReadsWhole s.now result }
{
    let read = node(s, 0, DEPTH)?;
    if read.end == s.len() {
        Ok(read)
    } else {
        Err(Fault::BadYson(read.end))
    }
}

// Whether the input is one node within 64 open brackets, with how many items in its outer map, or where it fails.
pub fn check(s: &[u8]) -> Result<usize, YsonError>
    ensures { Checks s.now result }
{
    let Read { items, .. } = whole(s)?;
    Ok(items)
}

// The four words of a pair, from the n-th word of the table on.
fn put_item(table: &mut [u64], n: usize, at: usize, middle: usize, end: usize)
    requires { (n + 4 ≤ length table.old) × (middle < end) }
    ensures { Stores n at middle end table.old table.new }
{
    table[n] = at as u64;
    table[n + 1] = middle as u64;
    table[n + 2] = (middle + 1) as u64;
    table[n + 3] = end as u64;
}

// The words of so many pairs of an outer map from `start` on, over the table's front.
fn fill(s: &[u8], start: usize, items: usize, table: &mut [u64])
    requires { Ready s.now start items (length table.old) }
    ensures { Fills s.now start items table.old table.new }
{
    let mut at = start;
    for item in 0..items {
        let Ok(PairRead { middle, end }) = pair(s, at, DEPTH - 1) else {
            return;
        };
        put_item(table, WORDS * item, at, middle, end);
        at = end + 1;
    }
}

// The items of the outer map: four words for each over the table's front, where its key and its value begin and end.
pub fn items(s: &[u8], table: &mut [u64]) -> Result<usize, YsonError>
    ensures { Lists s.now table.old result table.new }
{
    let Read { start, items, .. } = whole(s)?;
    let given = table.len() / WORDS;
    if given < items {
        return Err(YsonError::Short(NoRoom {
            room: Room::Items,
            needed: items as u64,
            given: given as u64,
        }));
    }
    fill(s, start, items, table);
    Ok(items)
}
