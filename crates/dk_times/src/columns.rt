//! The column of a name.
ghost use Rattle.std.specs.Prelude.{◌≡◌, position};
ghost use Rattle.std.specs.Str.{bytes_eq};
ghost use Rattle.csv.specs.Records.{fields_of};

use csv::ByteRecord;

/// The place of the first field with these bytes.
pub(crate) fn place_of(row: &ByteRecord, name: &[u8]) -> Option<usize>
    ensures { result ≡ position (λ field. bytes_eq field name.now) (fields_of row.now) }
{
    for place in 0..row.len() {
        if let Some(field) = row.get(place) {
            if field == name {
                return Some(place);
            }
        }
    }
    None
}
