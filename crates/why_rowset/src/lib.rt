// Why a rowset was refused, or why an accepted one is not plain (document 02, A9): one walk over the input, front to
// back, that keeps where it stands and the first byte that breaks the plain form.
#![tactic(auto)]

ghost use Rattle.why_rowset.specs.Checks.{ExplainsRowset};

use finding::Finding;
use walk::walk_rowset;

mod plain;
mod value;
mod walk;

// Why the rowset is refused, or which field or padding byte of an accepted one breaks the plain form first.
pub fn explain(input: &[u8]) -> Finding
    ensures { ExplainsRowset input.now result }
{
    match walk_rowset(input) {
        Err(finding) => finding,
        Ok(walked) => walked.plain,
    }
}
