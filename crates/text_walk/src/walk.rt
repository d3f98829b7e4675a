// A text walked whole: how many rows, values and blob bytes it has, or what is met first. The loop steps by a line at a
// time: no range counts it.
ghost use Rattle.text_walk.specs.Statement.{Counts};

use super::check::{Line, check_line};
use super::error::TextError;

// How many rows, values and blob bytes a text has.
#[derive(Clone, Copy)]
pub struct Walked {
    pub rows: usize,
    pub values: usize,
    pub bytes: usize,
}

// Whether the text has the form and keeps the limits, and how much it would fill.
pub fn count_text(text: &[u8]) -> Result<Walked, TextError>
    ensures { Counts text.now result }
{
    let mut at = 0;
    let mut rows: usize = 0;
    let mut values: usize = 0;
    let mut bytes: usize = 0;
    let mut size: usize = 8;
    while at < text.len() {
        let Line {
            next,
            values: more,
            bytes: blob,
            size: sum,
        } = check_line(text, at, rows, size)?;
        rows += 1;
        values += more;
        bytes += blob;
        size = sum;
        at = next;
    }
    Ok(Walked {
        rows,
        values,
        bytes,
    })
}
