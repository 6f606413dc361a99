//! Who takes the entries of a run as they come.
ghost use Rattle.std.specs.Prelude.{List, Result, Ok, ◌≡◌, ◌+◌, ◌≤◌, length};
ghost use Rattle.dk_trace.specs.declared.Entry.{Entry as TickEntry};
ghost use Rattle.dk_trace.specs.Ranges.{Size};
ghost use Rattle.dk_kernel.specs.Recording.{IsLabelKnown};
ghost use Rattle.dk_kernel.specs.Stretches.{gone_on};

use dk_config::MAX_TICKS;
use dk_trace::Entry;
use std::convert::Infallible;

/// Who takes the entries of a run as they come: to write them, to count them, or to stop at one.
///
/// What it makes of them it says by `HasTaken`, and a run says that this goes on to hold.
pub trait Recorder {
    /// Why it takes no more.
    type Error;

    /// What there was when it began, as the sink that it writes to.
    ghost Start: { Type 0 };

    /// For how many levels and processes it began.
    ghost size: { Self.Start → Size };

    /// What stays the same of it: where it has a `&mut`, the name of that reference.
    ghost Kept: { Type 0 };

    ghost kept: { Self → Self.Kept };

    /// Since that start it was handed these entries, the newest first, and this was its last answer.
    ghost HasTaken: { Self.Start → Self → Result (Unit {0}) Self.Error → List TickEntry → Type 0 };

    /// Takes the entries of the next ticks, so many, all of the label of this one, which is the last of them and alone
    /// may have an event.
    ///
    /// With those that it took before they are at most 4,000,000,000.
    fn take(&mut self, count: u32, last: Entry) -> Result<(), Self::Error>
        requires some { 1 ≤ count }
        requires begun { (start : Self.Start) × (past : List TickEntry) × HasTaken start self.old (Ok tt) past
            × (length past + count ≤ MAX_TICKS) × IsLabelKnown (size start) last.label }
        ensures kept { kept self.new ≡ kept self.old }
        ensures taken { (start : Self.Start) (past : List TickEntry) → HasTaken start self.old (Ok tt) past
            → HasTaken start self.new result (gone_on count last past) };
}

/// Nobody records: the run only goes on.
impl Recorder for () {
    ghost use Rattle.std.specs.Prelude.{◌≡◌, Ok};
    ghost use Rattle.dk_trace.specs.Ranges.{Size};

    type Error = Infallible;

    ghost Start = { Size };

    ghost size = { λ size. size };

    ghost Kept = { Unit {0} };

    ghost kept = { λ _. tt };

    ghost HasTaken = { λ _ _ result _. result ≡ Ok tt };

    #[inline(always)]
    fn take(&mut self, _count: u32, _last: Entry) -> Result<(), Infallible> {
        Ok(())
    }
}
