//! Files, with their names.

/// A file: its name as given, and what it holds.
#[derive(Clone, Copy)]
pub struct NamedFile<'a> {
    pub name: &'a str,
    pub bytes: &'a [u8],
}
