//! What is ready to be written, and the writing.
ghost use Rattle.std.specs.Prelude.{◌≡◌};
ghost use Rattle.dk_ledger.specs.Readable.{Journal, IsReadable, text_of};
ghost use Rattle.dk_groups.specs.Writing.{Puts};
ghost use Rattle.dk_show.specs.Works.{IsRangeReady};
ghost use Rattle.dk_show.specs.Output.{drawn_text};

use crate::Status;
use dk_config_report::Page;
use dk_csv::CsvTable;
use dk_groups::WriteFault;
use dk_outside::Sink;
use dk_show_request::Drawing;
use dk_trace_events::Trace;
use dk_vcd::Dump;
use std::alloc::Global;

/// A ledger that can be read, in its bytes, and what is to be drawn of its ticks from `from` up to before `to`.
#[derive(Drop)]
pub(crate) struct RangeWork {
    pub(crate) drawing: Drawing,
    pub(crate) bytes: Vec<u8>,
    pub(crate) from: u32,
    pub(crate) to: u32,
}

/// What is ready to be written.
#[derive(Drop)]
pub(crate) enum Work {
    /// A drawing of a ledger, which is read once more meanwhile.
    Draw(RangeWork),
    /// A whole page, and the status of the call once it is written.
    Page(Page, Status),
    /// The bytes of a whole text, and the same.
    Bytes(Vec<u8>, Status),
}

/// Writes the drawing.
pub(crate) fn draw<S: Sink>(alloc: Global, work: &RangeWork, sink: &mut S) -> Result<(), WriteFault>
    requires { IsRangeReady work.now }
    ensures { (j : Journal) → IsReadable j → text_of j ≡ work.now.bytes.items
        → Puts (S.seen sink.old) (S.seen sink.new) result (drawn_text work.now.drawing work.now.from work.now.to j) }
{
    let bytes = work.bytes.as_slice();
    match work.drawing {
        Drawing::Trace => Trace::of(alloc, bytes, work.from, work.to)?.write(alloc, sink),
        Drawing::Vcd => Dump::of(alloc, bytes, work.from, work.to)?.write(alloc, sink),
        Drawing::Csv => CsvTable::of(alloc, bytes, work.from, work.to)?.write(alloc, sink),
    }
}
