//! Who takes the entries of a run: the writer of its ledger, and its totals.
ghost use Rattle.std.specs.Borrow.{GName};
ghost use Rattle.dk_trace.specs.Ranges.{Size};
ghost use Rattle.dk_command.specs.Recorded.{Begun, HasCountedRun, HasWritten};

use dk_kernel::Recorder;
use dk_ledger::{Header, RunWriter};
use dk_outside::{Sink, SinkError};
use dk_report::Totals;
use dk_trace::Entry;
use std::convert::Infallible;

/// Writes the lines of a run's ledger behind its header, as the entries come.
#[derive(Drop)]
pub struct RunLedger<'a, S: Sink> {
    pub writer: RunWriter,
    pub header: &'a Header,
    pub sink: &'a mut S,
}

impl<S: Sink> Recorder for RunLedger<'_, S> {
    type Error = SinkError;

    ghost Start = { Begun };

    ghost size = { λ start. start.size };

    ghost Kept = { GName };

    ghost kept = { λ ledger. ledger.sink.ghost_name };

    ghost HasTaken = { λ start ledger result past. HasWritten start ledger.header.now (S.seen ledger.sink.now)
        ledger.writer result past };

    #[inline(always)]
    fn take(&mut self, count: u32, last: Entry) -> Result<(), SinkError> {
        self.writer.stretch(self.header, count, last, self.sink)
    }
}

/// Counts the entries of a run.
#[derive(Drop)]
pub struct RunTotals {
    pub totals: Totals,
}

impl Recorder for RunTotals {
    type Error = Infallible;

    ghost Start = { Size };

    ghost size = { λ size. size };

    ghost Kept = { Unit {0} };

    ghost kept = { λ _. tt };

    ghost HasTaken = { λ size run result past. HasCountedRun size run.totals result past };

    #[inline(always)]
    fn take(&mut self, count: u32, last: Entry) -> Result<(), Infallible> {
        self.totals.add_stretch(count, last);
        Ok(())
    }
}
