// Rowsets: read into lent row and value tables, written from them; one value by itself; the plain form; the bytes
// behind a value table packed.
#![tactic(auto)]

ghost use Rattle.words.specs.Paper.{Tells};
ghost use Rattle.wire_read.specs.Paper.{paper_decoded};
ghost use Rattle.wire_read.specs.Statement.{TellsPlain};
ghost use Rattle.face_rowsets.specs.Statement.{DecodesRowset, EncodesRowset, MeasuresRowset, ReadsValue, PacksArea};

use wire::error::WireError;
use wire_read::rowset::Decoded;
use words::outcome::{Outcome, taken};

// How many rows and values were read, or the refusal, as document 01's number and values.
// (No `From`: both `Outcome` and `Result` are of other crates.)
fn decoded_outcome(answer: Result<Decoded, WireError>) -> Outcome
    ensures { Tells (paper_decoded answer) result }
{
    match answer {
        Ok(Decoded { rows, values }) => taken(0, rows as u64, values as u64, 0),
        Err(error) => Outcome::from(error),
    }
}

// Reads a rowset into the two lent tables.
#[unsafe(no_mangle)]
pub extern "C" fn cablefinch_decode_rowset(
    input: &[u8],
    rows: &mut [u64],
    values: &mut [u64],
) -> Outcome
    ensures { DecodesRowset input.now rows.old values.old result rows.new
        values.new }
{
    decoded_outcome(wire_read::rowset::decode_rowset(input, rows, values))
}

// Writes the rowset of these tables to the front of `out`.
#[unsafe(no_mangle)]
pub extern "C" fn cablefinch_encode_rowset(
    area: &[u8],
    rows: &[u64],
    values: &[u64],
    out: &mut [u8],
) -> Outcome
    ensures { EncodesRowset area.now rows.now values.now out.old result
        out.new }
{
    wire_check::size::outcome(wire_write::write::encode_rowset(area, rows, values, out))
}

// How many bytes the rowset of these tables has.
#[unsafe(no_mangle)]
pub extern "C" fn cablefinch_rowset_size(area: &[u8], rows: &[u64], values: &[u64]) -> Outcome
    ensures { MeasuresRowset area.now rows.now values.now result }
{
    wire_check::size::outcome(wire_check::size::encoded_size(area, rows, values))
}

// Reads the value that begins at this offset.
#[unsafe(no_mangle)]
pub extern "C" fn cablefinch_read_value(input: &[u8], at: usize) -> Outcome
    ensures { ReadsValue input.now at result }
{
    wire_value::value::outcome(wire_value::value::read_value(input, at))
}

// Whether the input is a rowset in its plain form.
#[unsafe(no_mangle)]
pub extern "C" fn cablefinch_is_plain(input: &[u8]) -> bool
    ensures { TellsPlain input.now result }
{
    wire_read::plain::is_plain(input)
}

// Packs the area behind a value table into `out`, and moves the offsets of the table there.
#[unsafe(no_mangle)]
pub extern "C" fn cablefinch_pack(area: &[u8], values: &mut [u64], out: &mut [u8]) -> Outcome
    ensures { PacksArea area.now values.old out.old result values.new
        out.new }
{
    pack_answer::answer::outcome(pack::pack(area, values, out))
}
