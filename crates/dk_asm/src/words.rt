//! Blanks and words of a line.
ghost use Rattle.std.specs.Prelude.{◌≡◌, ◌==◌};
ghost use Rattle.std.specs.List.{list_all, position, before_first};
ghost use Rattle.std.specs.Option.{option_copied, option_map};
ghost use Rattle.dk_asm.specs.Words.{is_blank};
ghost use Rattle.dk_asm.specs.Reading.{cut_at, is_solid, is_sought, skipped, behind_word, only_word};

pub(crate) fn is_blank(b: u8) -> bool
    ensures { result ≡ is_blank b }
{
    b == b' ' || b == b'\t' || b == b'\r'
}

/// What is looked for in a line.
#[derive(Clone, Copy)]
pub enum Sought {
    /// A blank.
    Blank,
    /// A byte that is no blank.
    Solid,
    /// This byte.
    Byte(u8),
}

impl Sought {
    fn is(self, b: u8) -> bool
        ensures { result ≡ is_sought self b }
    {
        match self {
            Sought::Blank => is_blank(b),
            Sought::Solid => !is_blank(b),
            Sought::Byte(byte) => b == byte,
        }
    }
}

fn first_at(bytes: &[u8], sought: Sought) -> Option<usize>
    ensures { result ≡ position (λ b. is_sought sought b) bytes.now }
{
    bytes.iter().position(|b| sought.is(*b))
}

/// The place of the first such byte.
pub(crate) fn byte_at(bytes: &[u8], byte: u8) -> Option<usize>
    ensures { result ≡ position (λ b. b == byte) bytes.now }
{
    first_at(bytes, Sought::Byte(byte))
}

/// What stands before the first such byte, and what stands behind it.
pub(crate) fn cut_at(bytes: &[u8], byte: u8) -> Option<(&[u8], &[u8])>
    ensures { option_map (λ cut. (cut.0.now, cut.1.now)) result ≡ cut_at byte bytes.now }
{
    let end = byte_at(bytes, byte)?;
    Some((&bytes[..end], &bytes[end + 1..]))
}

fn blank_at(bytes: &[u8]) -> Option<usize>
    ensures { result ≡ position is_blank bytes.now }
{
    first_at(bytes, Sought::Blank)
}

fn solid_at(bytes: &[u8]) -> Option<usize>
    ensures { result ≡ position is_solid bytes.now }
{
    first_at(bytes, Sought::Solid)
}

/// Whether all bytes are blanks.
pub(crate) fn are_blanks(bytes: &[u8]) -> bool
    ensures { result ≡ list_all is_blank bytes.now }
{
    solid_at(bytes).is_none()
}

/// The bytes from the first on that is no blank.
pub(crate) fn skip_blanks(bytes: &[u8]) -> &[u8]
    ensures { result.now ≡ skipped bytes.now }
{
    let start = solid_at(bytes).unwrap_or(bytes.len());
    &bytes[start..]
}

/// The bytes before the first blank, and those from it on.
pub(crate) fn first_word(bytes: &[u8]) -> (&[u8], &[u8])
    ensures word { result.0.now ≡ before_first is_blank bytes.now }
    ensures rest { result.1.now ≡ behind_word bytes.now }
{
    let end = blank_at(bytes).unwrap_or(bytes.len());
    bytes.split_at(end)
}

/// The word between blanks, if there is no more than one.
#[tactic(auto, unfolding(crate::specs::Reading::only_word))]
pub(crate) fn only_word(bytes: &[u8]) -> Option<&[u8]>
    ensures { option_copied result ≡ only_word bytes.now }
{
    let (word, rest) = first_word(skip_blanks(bytes));
    if are_blanks(rest) { Some(word) } else { None }
}
