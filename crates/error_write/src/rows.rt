// Which rows of the attributes an error has. Where the rows stand in the errors' order, as every known writer leaves
// them, an error's are the run before those of the error behind it, and the cursor `till` goes back with the errors;
// else all rows are looked through. `sorted`, here and below, is a fact of the table, found out once, and no step that a
// caller picks.
ghost use Rattle.std.specs.Prelude.{◌≡◌, ◌+◌};
ghost use Rattle.words.specs.Decide.{pick};
ghost use Rattle.error_write.specs.Stages.{TellsSorted, Pending, Runs};

use error_tree::table::ATTRIBUTE_ENTRY;

// Whether no row has a smaller index than the one before it.
pub(crate) fn is_sorted(attributes: &[u64]) -> bool
    ensures { TellsSorted attributes.now result }
{
    for k in 1..attributes.len() / ATTRIBUTE_ENTRY {
        if attributes[ATTRIBUTE_ENTRY * k] < attributes[ATTRIBUTE_ENTRY * (k - 1)] {
            return false;
        }
    }
    true
}

// Where the rows of the error number `i` begin; they end at `till`.
pub(crate) fn first_row(attributes: &[u64], sorted: bool, i: usize, till: usize) -> usize
    requires { Pending attributes.now sorted (i + 1) till }
    ensures { Runs attributes.now sorted i result till }
{
    if !sorted {
        return 0;
    }
    for k in (0..till).rev() {
        if attributes[ATTRIBUTE_ENTRY * k] < (i as u64) {
            return k + 1;
        }
    }
    0
}

// Where the rows of the error before it end.
pub(crate) fn row_before(sorted: bool, from: usize, till: usize) -> usize
    ensures { result ≡ pick sorted from till }
{
    if sorted { from } else { till }
}
