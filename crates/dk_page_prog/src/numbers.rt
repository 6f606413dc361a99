//! How the words spell ticks.
ghost use Rattle.std.specs.Prelude.{◌≡◌};
ghost use Rattle.std.specs.List.{list_all};
ghost use Rattle.dk_page_prog.specs.Numbers.{is_digit_byte, is_spelled, ticks_in};

use dk_config::MAX_RUN_TICKS;

fn all_digits(word: &[u8]) -> bool
    ensures { result ≡ list_all is_digit_byte word.now }
{
    word.iter().all(|b| *b >= 48 && *b <= 57)
}

fn is_spelled(word: &[u8]) -> bool
    ensures { result ≡ is_spelled word.now }
{
    !word.is_empty() && all_digits(word) && (word.len() == 1 || word[0] != 48)
}

/// The tick that the word spells, from 0 to 10,000,000.
pub(crate) fn ticks_in(word: &str) -> Option<u32>
    ensures { result ≡ ticks_in word.now }
{
    if !is_spelled(word.as_bytes()) {
        return None;
    }
    match word.parse::<u64>() {
        Ok(n) => {
            if n <= MAX_RUN_TICKS as u64 {
                Some(n as u32)
            } else {
                None
            }
        }
        Err(_) => None,
    }
}
