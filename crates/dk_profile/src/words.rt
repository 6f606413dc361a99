//! The words of a line.
ghost use Rattle.std.specs.Prelude.{◌≡◌, ◌==◌};
ghost use Rattle.std.specs.List.{position, before_first};
ghost use Rattle.dk_asm.specs.Words.{is_blank};
ghost use Rattle.dk_profile.specs.Words.{LineWords, behind_word, is_solid, line_words, skipped};

fn is_blank(b: u8) -> bool
    ensures { result ≡ is_blank b }
{
    b == b' ' || b == b'\t' || b == b'\r'
}

fn blank_at(bytes: &[u8]) -> Option<usize>
    ensures { result ≡ position is_blank bytes.now }
{
    bytes.iter().position(|b| is_blank(*b))
}

fn solid_at(bytes: &[u8]) -> Option<usize>
    ensures { result ≡ position is_solid bytes.now }
{
    bytes.iter().position(|b| !is_blank(*b))
}

fn comment_at(bytes: &[u8]) -> Option<usize>
    ensures { result ≡ position (λ b. b == 35) bytes.now }
{
    bytes.iter().position(|b| *b == b'#')
}

/// The line without its comment.
fn before_comment(bytes: &[u8]) -> &[u8]
    ensures { result.now ≡ before_first (λ b. b == 35) bytes.now }
{
    let end = comment_at(bytes).unwrap_or(bytes.len());
    &bytes[..end]
}

/// The bytes from the first on that is no blank.
fn skip_blanks(bytes: &[u8]) -> &[u8]
    ensures { result.now ≡ skipped bytes.now }
{
    let start = solid_at(bytes).unwrap_or(bytes.len());
    &bytes[start..]
}

/// The bytes before the first blank, and those behind it from the next on that is no blank.
fn first_word(bytes: &[u8]) -> (&[u8], &[u8])
    ensures word { result.0.now ≡ before_first is_blank bytes.now }
    ensures rest { result.1.now ≡ skipped (behind_word bytes.now) }
{
    let end = blank_at(bytes).unwrap_or(bytes.len());
    (&bytes[..end], skip_blanks(&bytes[end..]))
}

/// The words of a line before its comment.
#[derive(Drop)]
pub(crate) struct Words<'a> {
    pub(crate) first: &'a [u8],
    pub(crate) second: &'a [u8],
    /// What stands behind both.
    pub(crate) more: &'a [u8],
}

/// The first two words of a line, and what stands behind them. A word that isn't there is empty.
pub(crate) fn line_words(bytes: &[u8]) -> Words<'_>
    ensures first { result.first.now ≡ (line_words bytes.now).first }
    ensures second { result.second.now ≡ (line_words bytes.now).second }
    ensures more { result.more.now ≡ (line_words bytes.now).more }
{
    let (first, rest) = first_word(skip_blanks(before_comment(bytes)));
    let (second, more) = first_word(rest);
    Words {
        first,
        second,
        more,
    }
}
