//! Numbers in a source.
ghost use Rattle.std.specs.Prelude.{◌≡◌, true, min};
ghost use Rattle.std.specs.List.{list_all};
ghost use Rattle.std.specs.Char.{is_ascii_digit};
ghost use Rattle.std.specs.Str.Parse.{digits_value};
ghost use Rattle.dk_asm.specs.Words.{is_numeral};
ghost use Rattle.dk_asm.specs.Reading.{capped_number_of};

fn are_digits(word: &[u8]) -> bool
    ensures { result ≡ list_all is_ascii_digit word.now }
{
    word.iter().all(u8::is_ascii_digit)
}

/// Whether the word spells a number: it is `0`, or a digit from 1 to 9 followed by digits.
pub fn is_numeral(word: &[u8]) -> bool
    ensures { result ≡ is_numeral word.now }
{
    !word.is_empty() && are_digits(word) && (word.len() == 1 || word[0] != b'0')
}

/// The number that the digits write, with 65,536 for all from there on.
fn capped_value(digits: &[u8]) -> u32
    requires { list_all is_ascii_digit digits.now ≡ true }
    ensures { result ≡ min (digits_value 10 digits.now) 65536 }
{
    let mut n: u32 = 0;
    for digit in digits {
        n = (n * 10 + (*digit - b'0') as u32).min(65_536);
    }
    n
}

/// The number that the word is, with 65,536 for all from there on: no range goes so far.
#[tactic(auto, unfolding(crate::specs::Reading::number_of))]
pub(crate) fn number(word: &[u8]) -> Option<u32>
    ensures { result ≡ capped_number_of word.now }
{
    if is_numeral(word) {
        Some(capped_value(word))
    } else {
        None
    }
}
