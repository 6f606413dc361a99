ghost use Rattle.std.specs.Prelude.{◌≡◌, ◌<◌, ◌++◌, length, codes, decimal, IfSome};
ghost use Rattle.dk_outside.specs.Written.{Writes};
ghost use Rattle.dk_ledger.specs.Heading.{IsPrintable};
ghost use Rattle.dk_ledger.specs.LineText.{IsNamed};
ghost use Rattle.dk_ledger.specs.Ledgers.{last_text};

use crate::entry_text::text_of;
use crate::{Header, LedgerLine, TextLine};
use dk_outside::{Sink, SinkError};

/// Writes the last line, if there is one.
pub(crate) fn write_last<S: Sink>(
    header: &Header,
    last: Option<LedgerLine>,
    sink: &mut S,
) -> Result<(), SinkError>
    requires printable { IsPrintable header.now }
    requires last_named { IfSome last (λ l. IsNamed header.now l.label) }
    ensures { Writes (S.seen sink.old) (S.seen sink.new) result (last_text header.now last) }
{
    match last {
        None => Ok(()),
        Some(line) => text_of(header, line).write_to(sink),
    }
}

/// The line of the end, without its line feed.
pub fn end_of(entries: u32) -> TextLine
    ensures text { result ≡ codes "end " ++ decimal entries }
    ensures len { length result < 200 }
{
    let mut text = TextLine::new();
    text.word("end ");
    text.number(entries);
    text
}
