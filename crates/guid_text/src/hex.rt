// A word as text: in hex, and with a dash behind it.
// All of it is private to the crate; a stage may require what the public functions have tested.
ghost use Rattle.std.specs.Prelude.{◌≡◌, ◌+◌, ◌≤◌, ◌<◌, length};
ghost use Rattle.words.specs.Buffer.{over};
ghost use Rattle.numerals.specs.Statement.{hex};
ghost use Rattle.guid_text.specs.Stages.{dashed};

use numerals::write_hex;

// The word in hex over the front of `out`, which has the room, and how many bytes that is.
#[tactic(auto, using(words::proofs::BufferLaws::fitted_fits))]
pub(crate) fn put(out: &mut [u8], word: u32) -> usize
    requires { length (hex word) ≤ length out.old }
    ensures { (result ≡ length (hex word)) × (out.new ≡ over (hex word) out.old) }
{
    write_hex(out, word)
}

// The same, with a dash behind it.
pub(crate) fn put_dashed(out: &mut [u8], word: u32) -> usize
    requires { length (hex word) < length out.old }
    ensures { (result ≡ length (hex word) + 1) × (out.new ≡ over (dashed word) out.old) }
{
    let count = put(out, word);
    out[count] = b'-';
    count + 1
}
