ghost use Rattle.std.specs.Prelude.{ℕ, List, ◌≡◌, ◌++◌, ◌<◌, [], IfOk, IsErrOf, OnOk};
ghost use Rattle.dk_trace.specs.declared.Entry.{Entry as TickEntry};
ghost use Rattle.dk_ledger.specs.declared.ledger.LedgerFault.{LedgerFault};
ghost use Rattle.dk_ledger.specs.Cuts.{entries_of};
ghost use Rattle.dk_ledger.specs.Readable.{IsReadable, IsNoText, IsWrongLine, text_of};
ghost use Rattle.dk_ledger.specs.ReadSoFar.{HasRead, HasReadAll};

use crate::{Header, Ledger, LedgerFault, LedgerLine, LedgerReader};
use dk_config::NoMemory;
use dk_trace::Entry;
use std::alloc::Global;

/// Adds the entries of a line.
fn push_entries(entries: &mut Vec<Entry>, line: LedgerLine) -> Result<(), NoMemory>
    requires { 0 < line.count }
    ensures { OnOk result (entries.new.items ≡ entries.old.items ++ entries_of line) }
{
    let quiet = Entry {
        label: line.label,
        event: None,
    };
    for _turn in 1..line.count {
        entries.push(quiet)?;
    }
    let last = Entry {
        label: line.label,
        event: line.event,
    };
    entries.push(last)?;
    Ok(())
}

/// Tells whether the bytes are the text of a ledger that can be read, and gives its header. Its code asks for no memory
/// but the header's; no clause says so.
pub fn check_ledger(alloc: Global, bytes: &[u8]) -> Result<Header, LedgerFault>
    ensures ok { IfOk result (λ header. (es : List TickEntry) × HasReadAll bytes.now es header) }
    ensures line { (n : ℕ) → IsErrOf result (LedgerFault.Line n) → IsWrongLine n bytes.now × IsNoText bytes.now }
{
    let mut reader = LedgerReader::new(alloc, bytes);
    pass_lines(&mut reader, alloc, bytes)?;
    Ok(reader.into_header())
}

/// Reads all lines of the bytes, of which the reader has read nothing.
fn pass_lines(reader: &mut LedgerReader, alloc: Global, bytes: &[u8]) -> Result<(), LedgerFault>
    requires { HasRead bytes.now [] reader.old }
    ensures ok { OnOk result ((es : List TickEntry) × HasReadAll bytes.now es reader.new.kept.heading) }
    ensures line { (n : ℕ) → IsErrOf result (LedgerFault.Line n) → IsWrongLine n bytes.now × IsNoText bytes.now }
{
    let _bytes = bytes;
    while let Some(_line) = reader.next(alloc)? {}
    Ok(())
}

/// Reads a ledger of at most 10,000,000 ticks.
///
/// `Line` names the first line, counted from 1, by which the bytes are the text of no ledger that
/// can be read: there are fewer lines with a line feed, or the lines up to it begin no such text.
pub fn read_ledger(alloc: Global, bytes: &[u8]) -> Result<Ledger, LedgerFault>
    ensures ok { IfOk result (λ l. IsReadable l × (text_of l ≡ bytes.now)) }
    ensures line { (n : ℕ) → IsErrOf result (LedgerFault.Line n) → IsWrongLine n bytes.now × IsNoText bytes.now }
{
    let mut reader = LedgerReader::new(alloc, bytes);
    let mut entries = Vec::new(alloc);
    read_entries(&mut reader, alloc, bytes, &mut entries)?;
    Ok(Ledger {
        header: reader.into_header(),
        entries,
    })
}

/// Adds the entries of all lines of the bytes, of which the reader has read nothing.
fn read_entries(
    reader: &mut LedgerReader,
    alloc: Global,
    bytes: &[u8],
    entries: &mut Vec<Entry>,
) -> Result<(), LedgerFault>
    requires new { HasRead bytes.now [] reader.old }
    requires none { entries.old.items ≡ [] }
    ensures ok { OnOk result (HasReadAll bytes.now entries.new.items reader.new.kept.heading) }
    ensures line { (n : ℕ) → IsErrOf result (LedgerFault.Line n) → IsWrongLine n bytes.now × IsNoText bytes.now }
{
    let _bytes = bytes;
    while let Some(line) = reader.next(alloc)? {
        push_entries(entries, line)?;
    }
    Ok(())
}
