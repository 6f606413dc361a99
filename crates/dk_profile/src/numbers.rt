//! Numbers in a profile, which are spelled as in a source of the assembler.
ghost use Rattle.std.specs.Prelude.{◌≡◌, true, min};
ghost use Rattle.std.specs.List.{list_all};
ghost use Rattle.std.specs.Char.{is_ascii_digit};
ghost use Rattle.std.specs.Option.{option_map};
ghost use Rattle.std.specs.Str.Parse.{digits_value};
ghost use Rattle.dk_profile.specs.Reading.{capped_number};

use dk_asm::is_numeral;

/// The number that the digits write, with 1,000,001 for all from there on.
fn capped_value(digits: &[u8]) -> u32
    requires { list_all is_ascii_digit digits.now ≡ true }
    ensures { result ≡ min (digits_value 10 digits.now) 1000001 }
{
    let mut n: u32 = 0;
    for digit in digits {
        n = (n * 10 + (*digit - b'0') as u32).min(1_000_001);
    }
    n
}

/// The number that the word spells, with 1,000,001 for all from there on: no range goes so far.
pub(crate) fn number(word: &[u8]) -> Option<u32>
    ensures { result ≡ capped_number word.now }
{
    if is_numeral(word) {
        Some(capped_value(word))
    } else {
        None
    }
}
