ghost use Rattle.std.specs.Prelude.{◌≡◌, ◌∷◌, []};
ghost use Rattle.dk_entry_words.specs.Parted.{byte_of};

/// What stands between two words.
#[derive(Clone, Copy)]
pub enum Separator {
    /// As in a ledger.
    Blank,
    Comma,
}

impl Separator {
    pub(crate) fn as_str(self) -> &'static str
        ensures { result.now ≡ byte_of self ∷ [] }
    {
        match self {
            Separator::Blank => " ",
            Separator::Comma => ",",
        }
    }
}
