//! The line and the column of a byte.
ghost use Rattle.std.specs.Prelude.{◌≡◌, ◌≤◌, length};
ghost use Rattle.dk_config.specs.declared.TheConstants.{MAX_CONFIG_BYTES};
ghost use Rattle.dk_document_report.specs.Places.{goes_on, next_place, place_after};

use dk_config::MAX_CONFIG_BYTES;

/// A place in a text. Both numbers are from 1, and a column counts characters.
#[derive(Clone, Copy)]
pub struct Place {
    pub line: u32,
    pub column: u32,
}

/// Whether the byte goes on with a character of UTF-8.
fn goes_on(byte: u8) -> bool
    ensures { result ≡ goes_on byte }
{
    byte >= 128 && byte < 192
}

fn next_place(place: Place, byte: u8) -> Place
    requires line { place.line ≤ MAX_CONFIG_BYTES }
    requires column { place.column ≤ MAX_CONFIG_BYTES }
    ensures { result ≡ next_place place byte }
{
    if byte == b'\n' {
        Place {
            line: place.line + 1,
            column: 1,
        }
    } else if goes_on(byte) {
        place
    } else {
        Place {
            line: place.line,
            column: place.column + 1,
        }
    }
}

/// The place after these bytes.
pub(crate) fn place_after(before: &[u8]) -> Place
    requires few { length before.now ≤ MAX_CONFIG_BYTES }
    ensures { result ≡ place_after before.now }
{
    let mut place = Place { line: 1, column: 1 };
    for byte in before {
        place = next_place(place, *byte);
    }
    place
}
