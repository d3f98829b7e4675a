// The second walk: the tables are filled. It goes over the same fields as the first, which has shown that there is
// room. `start` and `end` stay beside the input, here and below: the tables tell places in the whole input. A field's
// number and an error's code are the sender's numbers, which no enum can list.
ghost use Rattle.std.specs.Prelude.{◌≡◌, ◌≤◌, ◌<◌, ◌+◌, ◌*◌, [], ◌∷◌, length};
ghost use Rattle.std.proofs.lemmas.List.Edits.{sets};
ghost use Rattle.words.specs.Decide.{pick, ◌=?◌};
ghost use Rattle.error_tree.specs.Message.{fields, error_fields, dictionary_fields};
ghost use Rattle.error_tree.specs.Tree.{none, field_parts, inner_part, parts, tree};
ghost use Rattle.error_tree.specs.Statement.{Lies};
ghost use Rattle.error_read.specs.Stages.{Scanned, entry_words, dictionary_words, Stored, Fills, FillsAll, Room};

use error_tree::message::{ATTRIBUTE_FIELDS, DICTIONARY_FIELDS, ERROR_FIELDS, read_known};
use error_tree::table::{ATTRIBUTE_ENTRY, ERROR_ENTRY};
use field::field::Field;

// Of the last fields numbered 1 and 2: the varint, and where what comes behind it begins.
#[derive(Clone, Copy)]
pub(crate) struct Own {
    pub(crate) value1: u64,
    pub(crate) place1: u64,
    pub(crate) value2: u64,
    pub(crate) place2: u64,
}

// Which error and which word of the attributes come next.
#[derive(Clone, Copy)]
pub(crate) struct Filled {
    pub(crate) next: usize,
    pub(crate) row: usize,
}

// The new one where the number is the one wanted.
fn choose(number: u64, wanted: u64, new: u64, old: u64) -> u64
    ensures { result ≡ pick (number =? wanted) new old }
{
    if number == wanted { new } else { old }
}

// The last fields numbered 1 and 2 of a message that knows so many: of a repeated scalar field the last one counts.
fn scan(input: &[u8], start: usize, end: usize, known: u64) -> Own
    requires { (start ≤ end) × (end ≤ length input.now) }
    ensures { Scanned input.now (fields known input.now start end) result }
{
    let mut at = start;
    let mut own = Own {
        value1: 0,
        place1: 0,
        value2: 0,
        place2: 0,
    };
    while at < end {
        let Some(field) = read_known(input, at, end, known) else {
            return own;
        };
        own.value1 = choose(field.number, 1, field.value, own.value1);
        own.place1 = choose(field.number, 1, field.content as u64, own.place1);
        own.value2 = choose(field.number, 2, field.value, own.value2);
        own.place2 = choose(field.number, 2, field.content as u64, own.place2);
        at = field.stop;
    }
    own
}

// The attribute of the error number `index` in a dictionary's field, to the word `k` of the table on. Answers which
// word comes next.
fn fill_entry(
    input: &[u8],
    at: usize,
    field: Field,
    index: usize,
    attributes: &mut [u64],
    k: usize,
) -> usize
    requires { (Lies input.now at field)
        × (k + length (entry_words index input.now at) ≤ length attributes.old) }
    ensures { Stored (entry_words index input.now at) attributes.old k attributes.new result }
{
    if field.number != 1 {
        return k;
    }
    let own = scan(input, field.content, field.stop, ATTRIBUTE_FIELDS);
    attributes[k] = index as u64;
    attributes[k + 1] = own.place1;
    attributes[k + 2] = own.value1;
    attributes[k + 3] = own.place2;
    attributes[k + 4] = own.value2;
    k + ATTRIBUTE_ENTRY
}

// The attributes of a dictionary, to the word `first` of the table on: repeated dictionaries add up.
fn fill_dictionary(
    input: &[u8],
    start: usize,
    end: usize,
    index: usize,
    attributes: &mut [u64],
    first: usize,
) -> usize
    requires { (start ≤ end) × (end ≤ length input.now)
        × (first + length (dictionary_words index input.now (fields dictionary_fields input.now start end))
        ≤ length attributes.old) }
    ensures { Stored
        (dictionary_words index input.now (fields dictionary_fields input.now start end))
        attributes.old first attributes.new result }
{
    let mut at = start;
    let mut k = first;
    while at < end {
        let Some(field) = read_known(input, at, end, DICTIONARY_FIELDS) else {
            return k;
        };
        k = fill_entry(input, at, field, index, attributes, k);
        at = field.stop;
    }
    k
}

// The entry of the error number `next`.
fn put_error(errors: &mut [u64], next: usize, code: u64, depth: u64, place: u64, size: u64)
    requires { 4 * (next + 1) ≤ length errors.old }
    ensures { errors.new
        ≡ sets errors.old (4 * next) (code ∷ depth ∷ place ∷ size ∷ []) }
{
    let k = ERROR_ENTRY * next;
    errors[k] = code;
    errors[k + 1] = depth;
    errors[k + 2] = place;
    errors[k + 3] = size;
}

// What a field of the error number `index` holds, at `depth`, to `first` on; `left` levels are allowed below that
// error.
#[cycle(fill_held_fill_inside)]
fn fill_inside(
    input: &[u8],
    at: usize,
    field: Field,
    left: u64,
    depth: u64,
    index: usize,
    first: Filled,
    errors: &mut [u64],
    attributes: &mut [u64],
) -> Filled
    requires { (Lies input.now at field) × (depth + left ≤ 17)
        × Room (field_parts (inner_part left input.now) input.now at none) first.next first.row errors.old
        attributes.old }
    ensures { Fills (field_parts (inner_part left input.now) input.now at none) depth index first.next
        first.row errors.old attributes.old errors.new attributes.new result }
{
    match field.number {
        3 => {
            let row = fill_dictionary(
                input,
                field.content,
                field.stop,
                index,
                attributes,
                first.row,
            );
            Filled {
                next: first.next,
                row,
            }
        }
        4 => {
            if left == 0 {
                return first;
            }
            let own = scan(input, field.content, field.stop, ERROR_FIELDS);
            put_error(
                errors,
                first.next,
                own.value1 % 0x1_0000_0000,
                depth,
                own.place2,
                own.value2,
            );
            let held = Filled {
                next: first.next + 1,
                row: first.row,
            };
            fill_held(
                input,
                field.content,
                field.stop,
                left - 1,
                depth + 1,
                first.next,
                held,
                errors,
                attributes,
            )
        }
        _ => first,
    }
}

// What the error number `index` holds, its inner errors being at `depth`, to `first` on.
#[cycle(fill_held_fill_inside)]
fn fill_held(
    input: &[u8],
    start: usize,
    end: usize,
    left: u64,
    depth: u64,
    index: usize,
    first: Filled,
    errors: &mut [u64],
    attributes: &mut [u64],
) -> Filled
    requires { (start ≤ end) × (end ≤ length input.now) × (depth + left ≤ 17)
        × Room (parts left input.now (fields error_fields input.now start end)) first.next first.row
        errors.old attributes.old }
    ensures { Fills (parts left input.now (fields error_fields input.now start end)) depth index
        first.next first.row errors.old attributes.old errors.new attributes.new result }
{
    let mut at = start;
    let mut filled = first;
    while at < end {
        let Some(field) = read_known(input, at, end, ERROR_FIELDS) else {
            return filled;
        };
        filled = fill_inside(
            input, at, field, left, depth, index, filled, errors, attributes,
        );
        at = field.stop;
    }
    filled
}

// The whole tree.
pub(crate) fn fill_error(input: &[u8], errors: &mut [u64], attributes: &mut [u64])
    requires { Room (tree input.now) 0 0 errors.old attributes.old }
    ensures { FillsAll input.now errors.old attributes.old errors.new
        attributes.new }
{
    let own = scan(input, 0, input.len(), ERROR_FIELDS);
    put_error(
        errors,
        0,
        own.value1 % 0x1_0000_0000,
        1,
        own.place2,
        own.value2,
    );
    let held = Filled { next: 1, row: 0 };
    fill_held(input, 0, input.len(), 15, 2, 0, held, errors, attributes);
}
