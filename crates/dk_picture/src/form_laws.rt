ghost use Rattle.std.specs.Prelude.{ℕ, List, ◌≡◌, ◌≤◌, ◌<◌, ◌++◌, ◌⊎◌, codes};
ghost use Rattle.dk_trace.specs.declared.Entry.{Entry};
ghost use Rattle.dk_trace.specs.declared.Event.{Event};
ghost use Rattle.dk_trace.specs.declared.Label.{Label};
ghost use Rattle.dk_trace.specs.declared.Label.TheVariants.{Idle};
ghost use Rattle.dk_trace.specs.Members.{Has};
ghost use Rattle.dk_trace.specs.Says.{word_of};
ghost use Rattle.dk_ledger.specs.Heading.{Heading};
ghost use Rattle.dk_ledger.specs.LineText.{event_text};
ghost use Rattle.dk_ledger.specs.Readable.{IsReadable};
ghost use Rattle.dk_groups.specs.Groups.{groups};
ghost use Rattle.dk_picture.specs.Bars.{class_of, shift_of};
ghost use Rattle.dk_picture.specs.HoldBars.{hold_class};
ghost use Rattle.dk_picture.specs.Legends.{meaning_of, meanings, named_classes};
ghost use Rattle.dk_picture.specs.Marks.{mark_class};
ghost use Rattle.dk_picture.specs.Numbers.{max_groups};
ghost use Rattle.dk_picture.specs.Pictures.{IsGreatestEnd, IsTooMany};
ghost use Rattle.dk_picture.specs.Pixels.{BeginsAt, IsInBar};
ghost use Rattle.dk_picture.specs.Places.{middle_of, place_of};
ghost use Rattle.dk_picture.specs.PlainWords.{ArePlain};
ghost use Rattle.dk_picture.specs.Styles.{HasOneFill, dark_fills, fills_of, light};
ghost use Rattle.dk_picture.specs.declared.reading.TheConstants.{MAX_GROUPS};
ghost use Rattle.dk_picture.specs.declared.span.Span.{Span};

/// The most groups that a picture has, and that no TO above the tick that is told for a range with more of them leaves as
/// few: that tick does.
pub fn the_end_that_is_told_is_the_greatest()
    ensures most { MAX_GROUPS ≡ max_groups }
    ensures greatest { (from to t : ℕ) (es : List Entry) → IsTooMany (groups from to es) t → IsGreatestEnd from to t es }
{}

/// What stands at a tick stands at its bar: its place is the pixel in which the bar begins, and its middle, where its mark
/// is, is a pixel that has a part of it.
pub fn places_are_those_of_the_bars()
    ensures begin { (s : Span) (t : ℕ) → t ≤ s.to → BeginsAt s t (place_of s t) }
    ensures middle { (s : Span) (t : ℕ) → t < s.to → IsInBar s t (middle_of s t) }
{}

/// Each class of a bar, of a hold and of a mark has one fill on a light page, and one on a dark page. Two labels whose bars
/// have one fill and begin at one height of the row have one class.
pub fn each_class_has_one_fill()
    ensures bars { (label : Label) → HasOneFill (codes "rect") (class_of label) }
    ensures holds { HasOneFill (codes "rect") hold_class }
    ensures marks { (event : Event) → HasOneFill (codes "path") (mark_class event) }
    ensures on_light { (a b : Label)
        → fills_of light (codes "rect") (class_of a) ≡ fills_of light (codes "rect") (class_of b)
        → shift_of a ≡ shift_of b → class_of a ≡ class_of b }
    ensures on_dark { (a b : Label)
        → dark_fills (codes "rect") (class_of a) ≡ dark_fills (codes "rect") (class_of b)
        → shift_of a ≡ shift_of b → class_of a ≡ class_of b }
{}

/// The legend has each class that a bar may have, but that of nobody's ticks, and of each event its mark and its word,
/// which is the one that its title has.
pub fn the_legend_names_all()
    ensures bars { (label : Label) → (label ≡ Idle) ⊎ Has named_classes (class_of label) }
    ensures marks { (event : Event) → Has meanings (meaning_of event) }
    ensures words { (event : Event) → (rest : List ℕ) × (event_text event ≡ word_of event ++ rest) }
{}

/// No word that the picture of a ledger that can be read has from it, as a name or a title, has a byte with which markup
/// begins or ends: none of & < > ' and ".
pub fn words_need_no_escapes()
    ensures { (h : Heading) (from to : ℕ) (es : List Entry) → IsReadable (record { heading = h; entries = es })
        → ArePlain h from to es }
{}
