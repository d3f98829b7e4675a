// A field's name as text, over the front of a lent part; where it does not fit the part keeps its contents, and the
// count is told all the same.
#![tactic(auto)]

ghost use Rattle.std.specs.Prelude.{◌≡◌};
ghost use Rattle.words.specs.Text.{text};
ghost use Rattle.finding.specs.Meaning.{name_of};
ghost use Rattle.finding_name.specs.Statement.{WritesName};

use finding::Field;
use word_write::write_bytes;

// The name of a field.
fn name(field: Field) -> &'static [u8]
    ensures { result.now ≡ text (name_of field) }
{
    match field {
        Field::FixedHeader => b"fixed-header",
        Field::Signature => b"signature",
        Field::TypeCode => b"type",
        Field::FixedChecksum => b"fixed-checksum",
        Field::PartCount => b"part-count",
        Field::Headers => b"headers",
        Field::VariableChecksum => b"variable-checksum",
        Field::PartSize => b"part-size",
        Field::Whole => b"whole",
        Field::PartChecksum => b"part-checksum",
        Field::RowCount => b"row-count",
        Field::ValueCount => b"value-count",
        Field::ValueHeader => b"value-header",
        Field::Word => b"word",
        Field::Blob => b"blob",
        Field::Length => b"length",
        Field::TrailingBytes => b"trailing-bytes",
        Field::Aggregate => b"aggregate",
        Field::Padding => b"padding",
    }
}

// Writes the name of a field, and says how many bytes that is.
pub fn write_name(out: &mut [u8], field: Field) -> usize
    ensures { WritesName field out.old result out.new }
{
    let name = name(field);
    write_bytes(out, name);
    name.len()
}
