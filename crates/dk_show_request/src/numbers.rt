//! How the words spell ticks.
ghost use Rattle.std.specs.Prelude.{◌≡◌, ◌≤◌, IfSome};
ghost use Rattle.std.specs.List.{list_all};
ghost use Rattle.dk_show_request.specs.Numbers.{is_digit_byte, is_spelled, percent_in, percent_of, ticks_in};

use dk_config::MAX_RUN_TICKS;

/// The greatest reserve, in percent.
pub const MAX_RESERVE: u32 = 1000;

fn all_digits(word: &[u8]) -> bool
    ensures { result ≡ list_all is_digit_byte word.now }
{
    word.iter().all(|b| *b >= 48 && *b <= 57)
}

fn is_spelled(word: &[u8]) -> bool
    ensures { result ≡ is_spelled word.now }
{
    !word.is_empty() && all_digits(word) && (word.len() == 1 || word[0] != 48)
}

/// The tick that the word spells, from 0 to 10,000,000.
pub fn ticks_in(word: &str) -> Option<u32>
    ensures value { result ≡ ticks_in word.now }
    ensures most { IfSome result (λ n. n ≤ MAX_RUN_TICKS) }
{
    if !is_spelled(word.as_bytes()) {
        return None;
    }
    match word.parse::<u64>() {
        Ok(n) => {
            if n <= MAX_RUN_TICKS as u64 {
                Some(n as u32)
            } else {
                None
            }
        }
        Err(_) => None,
    }
}

/// The number of percent that the word spells, from 0 to 1,000.
pub fn percent_in(word: &str) -> Option<u32>
    ensures { result ≡ percent_in word.now }
{
    match ticks_in(word) {
        Some(percent) if percent <= MAX_RESERVE => Some(percent),
        _ => None,
    }
}
