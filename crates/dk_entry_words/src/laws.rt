ghost use Rattle.std.specs.Prelude.{ℕ, List, ◌≡◌, ◌++◌, ◌∷◌, false};
ghost use Rattle.dk_ledger.specs.declared.line.LedgerLine.{LedgerLine};
ghost use Rattle.dk_ledger.specs.Heading.{Heading, IsPrintable};
ghost use Rattle.dk_ledger.specs.LineText.{line_body};
ghost use Rattle.dk_ledger.specs.Words.{AreSpelled, is_spelled, line_words};
ghost use Rattle.dk_entry_words.specs.Parted.{parted};

/// The words of a line are of lower letters, digits, underscores and dots.
pub fn words_are_spelled()
    ensures { (h : Heading) (l : LedgerLine) → IsPrintable h → AreSpelled (line_words h l) }
{}

/// A line is its words with blanks between them; and parted by any byte that no word has, they tell it as well: with
/// another such byte behind, whatever comes then, the line in a ledger is the same.
pub fn told_by_any_separator()
    ensures ledger { (h : Heading) (l : LedgerLine) → parted 32 (line_words h l) ≡ line_body h l }
    ensures told { (h : Heading) (sep stop : ℕ) (a b : LedgerLine) (x y : List ℕ) → IsPrintable h
        → is_spelled sep ≡ false → is_spelled stop ≡ false → (sep ≡ stop → ⊥)
        → parted sep (line_words h a) ++ stop ∷ x ≡ parted sep (line_words h b) ++ stop ∷ y
        → (line_body h a ≡ line_body h b) × (x ≡ y) }
{}
