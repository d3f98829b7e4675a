// Links between the entries of a value table that name one pair of offset and length, kept in the spare bits of their
// words while packing runs: what a search along them ends at, how all are taken out, and their laws.
#![tactic(auto)]

ghost use Rattle.std.specs.Prelude.{◌<◌, ◌≡◌, length};
ghost use Rattle.pack_links.specs.Statement.{plain_word, Unlinks};

use wire::layout::ENTRY_WORDS;

// What a link adds to a word for each entry: the bits below are the word's own.
pub const LINK: u64 = 0x1_0000;

// Where a pair belongs. Both cases are places and neither is a failure, so it is no `Option` or `Result`.
#[derive(Clone, Copy)]
pub enum Place {
    // the entry that has the pair
    Known(usize),
    // the word over which to link it
    Free(usize),
}

fn plain_word(values: &[u64], k: usize) -> u64
    requires { k < length values.now }
    ensures { result ≡ plain_word values.now k }
{
    if k % ENTRY_WORDS < 3 {
        return values[k] % LINK;
    }
    values[k]
}

// Takes all links out of a table.
pub fn unlink_all(values: &mut [u64])
    ensures { Unlinks values.old values.new }
{
    for k in 0..values.len() {
        values[k] = plain_word(values, k);
    }
}
