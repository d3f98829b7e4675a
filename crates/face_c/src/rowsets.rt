// Rowsets: read into lent row and value tables, written from them; one value by itself; the plain form; the bytes
// behind a value table packed.
ghost use Rattle.wire_read.specs.Statement.{TellsPlain};
ghost use Rattle.face_rowsets.specs.Statement.{DecodesRowset, EncodesRowset, MeasuresRowset, ReadsValue, PacksArea};

use words::outcome::Outcome;

// Reads a rowset into the two lent tables.
#[unsafe(no_mangle)]
pub extern "C" fn cablefinch_decode_rowset(
    input: &[u8],
    rows: &mut [u64],
    values: &mut [u64],
) -> Outcome
    ensures { DecodesRowset input.now rows.old values.old result rows.new
        values.new }
{
    face_rowsets::cablefinch_decode_rowset(input, rows, values)
}

// Writes the rowset of these tables to the front of `out`.
#[unsafe(no_mangle)]
pub extern "C" fn cablefinch_encode_rowset(
    area: &[u8],
    rows: &[u64],
    values: &[u64],
    out: &mut [u8],
) -> Outcome
    ensures { EncodesRowset area.now rows.now values.now out.old result
        out.new }
{
    face_rowsets::cablefinch_encode_rowset(area, rows, values, out)
}

// How many bytes the rowset of these tables has.
#[unsafe(no_mangle)]
pub extern "C" fn cablefinch_rowset_size(area: &[u8], rows: &[u64], values: &[u64]) -> Outcome
    ensures { MeasuresRowset area.now rows.now values.now result }
{
    face_rowsets::cablefinch_rowset_size(area, rows, values)
}

// Reads the value that begins at this offset.
#[unsafe(no_mangle)]
pub extern "C" fn cablefinch_read_value(input: &[u8], at: usize) -> Outcome
    ensures { ReadsValue input.now at result }
{
    face_rowsets::cablefinch_read_value(input, at)
}

// Whether the input is a rowset in its plain form.
#[unsafe(no_mangle)]
pub extern "C" fn cablefinch_is_plain(input: &[u8]) -> bool
    ensures { TellsPlain input.now result }
{
    face_rowsets::cablefinch_is_plain(input)
}

// Packs the area behind a value table into `out`, and moves the offsets of the table there.
#[unsafe(no_mangle)]
pub extern "C" fn cablefinch_pack(area: &[u8], values: &mut [u64], out: &mut [u8]) -> Outcome
    ensures { PacksArea area.now values.old out.old result values.new
        out.new }
{
    face_rowsets::cablefinch_pack(area, values, out)
}
