// The bytes of errors, each entry's written at its own stretch of the output. `out`, `tables` and `entry` stay three
// parameters, here and below: the output is cut anew for each call, and a struct of them would be built anew with it.
ghost use Rattle.std.specs.Prelude.{◌≡◌, ◌++◌, ◌+◌, ◌*◌, ◌<◌, ◌≤◌, length};
ghost use Rattle.words.specs.Buffer.{over, stretch};
ghost use Rattle.error_tree.specs.Reading.{error_entry, attribute_entry};
ghost use Rattle.error_table.specs.Table.{errors_in, attributes_in};
ghost use Rattle.error_table.specs.Statement.{Sound};
ghost use Rattle.error_write.specs.Written.{lead, delimited, attribute_bytes, all_rows, entries_bytes};
ghost use Rattle.error_write.specs.Written.{dictionary_bytes, own_bytes, error_bytes};
ghost use Rattle.error_write.specs.Statement.{Encodes};
ghost use Rattle.error_write.specs.Stages.{Puts, Covers, row_bytes};

use super::rows::{first_row, is_sorted, row_before};
use super::size::{
    SUMS, add_capped, attribute_size, delimited_size, entries_size, own_size, size_checked,
};
use error_tree::refusal::ErrorRefusal;
use error_tree::table::{ATTRIBUTE_ENTRY, ERROR_ENTRY};
use varint::write::{varint_size, write_varint};
use word_write::write_bytes;
use words::outcome::{NoRoom, Room};

// The two lent tables, and the area that their offsets speak of.
#[derive(Clone, Copy)]
struct Tables<'a> {
    area: &'a [u8],
    errors: &'a [u64],
    attributes: &'a [u64],
}

// An error by its number: all its attributes stand in the rows from..till, and they have so many bytes.
#[derive(Clone, Copy)]
struct Entry {
    number: usize,
    from: usize,
    till: usize,
    size: u64,
}

// A tag, and the varint behind it.
fn put_lead(out: &mut [u8], tag: u8, n: u64) -> usize
    requires { length (lead tag n) ≤ length out.old }
    ensures { Puts (lead tag n) out.old out.new result }
{
    out[0] = tag;
    1 + write_varint(&mut out[1..], n)
}

// A stretch of the area as a field.
fn put_stretch(out: &mut [u8], tag: u8, area: &[u8], offset: u64, size: u64) -> usize
    requires { (offset + size ≤ length area.now)
        × (length (delimited tag (stretch area.now offset size)) ≤ length out.old) }
    ensures { Puts (delimited tag (stretch area.now offset size)) out.old out.new result }
{
    let start = offset as usize;
    let end = (offset + size) as usize;
    let at = put_lead(out, tag, size);
    write_bytes(&mut out[at..], &area[start..end]);
    at + (size as usize)
}

// The key and the value of the attribute number `k`.
fn put_attribute(out: &mut [u8], tables: Tables<'_>, k: usize) -> usize
    requires { Sound tables.area.now tables.errors.now tables.attributes.now
        × (k < attributes_in tables.attributes.now)
        × (length (attribute_bytes tables.area.now tables.attributes.now k) ≤ length out.old) }
    ensures { Puts (attribute_bytes tables.entry.area.now tables.entry.attributes.now k) out.old
        out.new result }
{
    let at = put_stretch(
        out,
        0x0a,
        tables.area,
        tables.attributes[ATTRIBUTE_ENTRY * k + 1],
        tables.attributes[ATTRIBUTE_ENTRY * k + 2],
    );
    at + put_stretch(
        &mut out[at..],
        0x12,
        tables.area,
        tables.attributes[ATTRIBUTE_ENTRY * k + 3],
        tables.attributes[ATTRIBUTE_ENTRY * k + 4],
    )
}

// The row `k`, where it is one of the error number `i`.
fn put_row(out: &mut [u8], tables: Tables<'_>, i: usize, k: usize) -> usize
    requires { Sound tables.area.now tables.errors.now tables.attributes.now
        × (k < attributes_in tables.attributes.now)
        × (length (row_bytes tables.area.now tables.attributes.now i k) ≤ length out.old) }
    ensures { Puts (row_bytes tables.entry.area.now tables.entry.attributes.now i k) out.old out.new result }
{
    if tables.attributes[ATTRIBUTE_ENTRY * k] != (i as u64) {
        return 0;
    }
    let at = put_lead(out, 0x0a, attribute_size(tables.attributes, k));
    at + put_attribute(&mut out[at..], tables, k)
}

// An error's attributes.
fn put_entries(out: &mut [u8], tables: Tables<'_>, entry: Entry) -> usize
    requires { Sound tables.area.now tables.errors.now tables.attributes.now
        × Covers tables.attributes.now entry.number entry.from entry.till
        × (length (entries_bytes tables.area.now tables.attributes.now
        (all_rows tables.attributes.now entry.number)) ≤ length out.old) }
    ensures { Puts (entries_bytes tables.entry.area.now tables.entry.attributes.now
        (all_rows tables.entry.attributes.now entry.number))
        out.old out.new result }
{
    let mut at = 0;
    for k in entry.from..entry.till {
        at += put_row(&mut out[at..], tables, entry.number, k);
    }
    at
}

// One dictionary if any.
fn put_dictionary(out: &mut [u8], tables: Tables<'_>, entry: Entry) -> usize
    requires { Sound tables.area.now tables.errors.now tables.attributes.now
        × Covers tables.attributes.now entry.number entry.from entry.till
        × (entry.size
        ≡ length (entries_bytes tables.area.now tables.attributes.now
        (all_rows tables.attributes.now entry.number)))
        × (length (dictionary_bytes (entries_bytes tables.area.now tables.attributes.now
        (all_rows tables.attributes.now entry.number)))
        ≤ length out.old) }
    ensures { Puts
        (dictionary_bytes
        (entries_bytes tables.entry.area.now tables.entry.attributes.now
        (all_rows tables.entry.attributes.now entry.number)))
        out.old out.new result }
{
    if entry.size == 0 {
        return 0;
    }
    let at = put_lead(out, 0x1a, entry.size);
    at + put_entries(&mut out[at..], tables, entry)
}

// An error without its inner errors.
fn put_own(out: &mut [u8], tables: Tables<'_>, entry: Entry) -> usize
    requires { Sound tables.area.now tables.errors.now tables.attributes.now
        × (entry.number < errors_in tables.errors.now)
        × Covers tables.attributes.now entry.number entry.from entry.till
        × (entry.size
        ≡ length (entries_bytes tables.area.now tables.attributes.now
        (all_rows tables.attributes.now entry.number)))
        × (length (own_bytes tables.area.now tables.errors.now tables.attributes.now entry.number)
        ≤ length out.old) }
    ensures { Puts
        (own_bytes tables.entry.area.now tables.entry.errors.now tables.entry.attributes.now entry.number)
        out.old out.new result }
{
    let code = put_lead(out, 0x08, tables.errors[ERROR_ENTRY * entry.number]);
    let text = code
        + put_stretch(
            &mut out[code..],
            0x12,
            tables.area,
            tables.errors[ERROR_ENTRY * entry.number + 2],
            tables.errors[ERROR_ENTRY * entry.number + 3],
        );
    text + put_dictionary(&mut out[text..], tables, entry)
}

// An inner error as a field, its inner errors going behind: they and it have so many bytes.
fn put_inner(out: &mut [u8], tables: Tables<'_>, entry: Entry, body: u64) -> usize
    requires { Sound tables.area.now tables.errors.now tables.attributes.now
        × (entry.number < errors_in tables.errors.now)
        × Covers tables.attributes.now entry.number entry.from entry.till
        × (entry.size
        ≡ length (entries_bytes tables.area.now tables.attributes.now
        (all_rows tables.attributes.now entry.number)))
        × (length (lead 0x22 body ++ own_bytes tables.area.now tables.errors.now tables.attributes.now entry.number)
        ≤ length out.old) }
    ensures { Puts
        (lead 0x22 body
        ++ own_bytes tables.entry.area.now tables.entry.errors.now tables.entry.attributes.now entry.number)
        out.old out.new result }
{
    let at = put_lead(out, 0x22, body);
    at + put_own(&mut out[at..], tables, entry)
}

// The whole message over the front of `out`, which has the room: from the last entry to the first, as it is measured.
fn write_errors(out: &mut [u8], tables: Tables<'_>, total: usize)
    requires { Sound tables.area.now tables.errors.now tables.attributes.now
        × (total ≡ length (error_bytes tables.area.now tables.errors.now tables.attributes.now))
        × (total ≤ length out.old) }
    ensures { out.new ≡ over (error_bytes tables.entry.area.now tables.entry.errors.now tables.entry.attributes.now)
        out.old }
{
    let sorted = is_sorted(tables.attributes);
    let mut till = tables.attributes.len() / ATTRIBUTE_ENTRY;
    let mut sums: [u64; SUMS] = [0; SUMS];
    let mut at = total;
    for i in (1..tables.errors.len() / ERROR_ENTRY).rev() {
        let from = first_row(tables.attributes, sorted, i, till);
        let entries = entries_size(tables.attributes, i, from, till);
        let own = own_size(tables.errors, i, entries);
        let depth = tables.errors[ERROR_ENTRY * i + 1] as usize;
        let body = add_capped(own, sums[depth + 1]);
        let size = 1 + varint_size(body) + (own as usize);
        at -= size;
        let entry = Entry {
            number: i,
            from,
            till,
            size: entries,
        };
        put_inner(&mut out[at..], tables, entry, body);
        till = row_before(sorted, from, till);
        let sum = add_capped(delimited_size(body), sums[depth]);
        sums[depth + 1] = 0;
        sums[depth] = sum;
    }
    let from = first_row(tables.attributes, sorted, 0, till);
    let entry = Entry {
        number: 0,
        from,
        till,
        size: entries_size(tables.attributes, 0, from, till),
    };
    put_own(out, tables, entry);
}

// Writes the tables as a TError and says how many bytes it has; a refusal leaves the output as it was.
pub fn encode_error(
    area: &[u8],
    errors: &[u64],
    attributes: &[u64],
    out: &mut [u8],
) -> Result<usize, ErrorRefusal>
    ensures { Encodes area.now errors.now attributes.now out.old result
        out.new }
{
    let count = size_checked(area, errors, attributes)?;
    if (out.len() as u64) < count {
        return Err(ErrorRefusal::NoRoom(NoRoom {
            room: Room::Output,
            needed: count,
            given: out.len() as u64,
        }));
    }
    let tables = Tables {
        area,
        errors,
        attributes,
    };
    write_errors(out, tables, count as usize);
    Ok(count as usize)
}
