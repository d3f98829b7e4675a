// Rowsets as tab-separated text: measured and written from lent tables over an area, and read into lent tables and a
// lent area.
ghost use Rattle.face_text.specs.Statement.{MeasuresText, WritesRowsetText, ReadsRowsetText};

use words::outcome::Outcome;

// How many bytes the text of these tables has.
#[unsafe(no_mangle)]
pub extern "C" fn cablefinch_text_size(area: &[u8], rows: &[u64], values: &[u64]) -> Outcome
    ensures { MeasuresText area.now rows.now values.now result }
{
    face_text::cablefinch_text_size(area, rows, values)
}

// Writes the text of these tables to the front of `out`.
#[unsafe(no_mangle)]
pub extern "C" fn cablefinch_write_text(
    area: &[u8],
    rows: &[u64],
    values: &[u64],
    out: &mut [u8],
) -> Outcome
    ensures { WritesRowsetText area.now rows.now values.now out.old result
        out.new }
{
    face_text::cablefinch_write_text(area, rows, values, out)
}

// Reads a text into the two lent tables and the lent area.
#[unsafe(no_mangle)]
pub extern "C" fn cablefinch_read_text(
    text: &[u8],
    rows: &mut [u64],
    values: &mut [u64],
    area: &mut [u8],
) -> Outcome
    ensures { ReadsRowsetText text.now rows.old values.old area.old result
        rows.new values.new area.new }
{
    face_text::cablefinch_read_text(text, rows, values, area)
}
