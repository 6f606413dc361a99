//! The spelling of names and of files' names.
ghost use Rattle.std.specs.Prelude.{◌≡◌};
ghost use Rattle.std.specs.List.{list_all};
ghost use Rattle.dk_config.specs.Rules.{is_name, is_file_name, is_lower, is_digit, is_upper, is_word, is_file_byte};

use crate::{MAX_FILE_NAME_BYTES, MAX_NAME_BYTES};

fn is_lower_byte(b: u8) -> bool
    ensures { result ≡ is_lower b }
{
    b >= b'a' && b <= b'z'
}

fn is_digit_byte(b: u8) -> bool
    ensures { result ≡ is_digit b }
{
    b >= b'0' && b <= b'9'
}

fn is_word_byte(b: &u8) -> bool
    ensures { result ≡ is_word b.now }
{
    is_lower_byte(*b) || is_digit_byte(*b) || *b == b'_'
}

fn is_upper_byte(b: u8) -> bool
    ensures { result ≡ is_upper b }
{
    b >= b'A' && b <= b'Z'
}

fn is_file_byte(b: &u8) -> bool
    ensures { result ≡ is_file_byte b.now }
{
    is_upper_byte(*b)
        || is_lower_byte(*b)
        || is_digit_byte(*b)
        || *b == b'.'
        || *b == b'_'
        || *b == b'-'
        || *b == b'/'
}

fn are_words(name: &[u8]) -> bool
    ensures { result ≡ list_all is_word name.now }
{
    name.iter().all(is_word_byte)
}

fn are_in_file_name(name: &[u8]) -> bool
    ensures { result ≡ list_all is_file_byte name.now }
{
    name.iter().all(is_file_byte)
}

/// Whether the bytes are a name: 1 to 16 of them, a lower-case letter and then lower-case letters, digits
/// or `_`.
pub fn is_name(name: &[u8]) -> bool
    ensures { result ≡ is_name name.now }
{
    !name.is_empty() && name.len() <= MAX_NAME_BYTES && is_lower_byte(name[0]) && are_words(name)
}

/// Whether the bytes are the name of a file: 1 to 64 letters, digits, `.`, `_`, `-` or `/`.
pub fn is_file_name(name: &[u8]) -> bool
    ensures { result ≡ is_file_name name.now }
{
    !name.is_empty() && name.len() <= MAX_FILE_NAME_BYTES && are_in_file_name(name)
}
