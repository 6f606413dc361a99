//! What may stand at an operand's place.

/// What may stand at an operand's place.
#[derive(Clone, Copy)]
pub enum Kind {
    /// `r0` to `r7`.
    Register,
    /// A number up to 255.
    Byte,
    /// A number up to 65,535.
    Word,
    /// A number up to 65,535, or a label.
    Value,
    /// The same, or `-` and a number from 1 to 32,768.
    Signed,
}
