// Rowsets as tab-separated text: measured and written from lent tables over an area, and read into lent tables and a
// lent area.
#![tactic(auto)]

ghost use Rattle.words.specs.Paper.{Tells};
ghost use Rattle.text_walk.specs.Paper.{walked_paper};
ghost use Rattle.face_text.specs.Statement.{MeasuresText, WritesRowsetText, ReadsRowsetText};

use text_walk::error::TextError;
use text_walk::walk::Walked;
use words::outcome::{Outcome, taken};

// What `read_text` answered, in words. A function and no `From`, for `Result` and `Outcome` are types of other crates.
fn walked_outcome(answer: Result<Walked, TextError>) -> Outcome
    ensures { Tells (walked_paper answer) result }
{
    match answer {
        Ok(walked) => {
            taken(
                walked.bytes as u64,
                walked.rows as u64,
                walked.values as u64,
                0,
            )
        }
        Err(error) => Outcome::from(error),
    }
}

// How many bytes the text of these tables has.
#[unsafe(no_mangle)]
pub extern "C" fn cablefinch_text_size(area: &[u8], rows: &[u64], values: &[u64]) -> Outcome
    ensures { MeasuresText area.now rows.now values.now result }
{
    wire_check::size::outcome(text_size::text_size(area, rows, values))
}

// Writes the text of these tables to the front of `out`.
#[unsafe(no_mangle)]
pub extern "C" fn cablefinch_write_text(
    area: &[u8],
    rows: &[u64],
    values: &[u64],
    out: &mut [u8],
) -> Outcome
    ensures { WritesRowsetText area.now rows.now values.now out.old result
        out.new }
{
    wire_check::size::outcome(text_write::write::write_text(area, rows, values, out))
}

// Reads a text into the two lent tables and the lent area.
#[unsafe(no_mangle)]
pub extern "C" fn cablefinch_read_text(
    text: &[u8],
    rows: &mut [u64],
    values: &mut [u64],
    area: &mut [u8],
) -> Outcome
    ensures { ReadsRowsetText text.now rows.old values.old area.old result
        rows.new values.new area.new }
{
    walked_outcome(text_read::read::read_text(text, rows, values, area))
}
