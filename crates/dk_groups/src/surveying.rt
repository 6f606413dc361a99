ghost use Rattle.std.specs.Prelude.{ℕ, List, ◌≡◌, IfOk, IsErrOf, length};
ghost use Rattle.dk_trace.specs.declared.Entry.{Entry};
ghost use Rattle.dk_ledger.specs.declared.ledger.LedgerFault.{LedgerFault as Fault};
ghost use Rattle.dk_ledger.specs.Heading.{IsPrintable};
ghost use Rattle.dk_ledger.specs.Readable.{Journal, IsNoText, IsReadable, IsWrongLine, text_of};
ghost use Rattle.dk_ledger.specs.ReadSoFar.{HasReadAll};

use dk_config::NoMemory;
use dk_ledger::{Header, LedgerFault, LedgerReader};
use std::alloc::Global;

/// What is known of a ledger once all of its lines have been read: its header, and how many entries it has.
#[derive(Drop)]
pub struct Survey {
    pub header: Header,
    pub ticks: u32,
}

/// Reads all lines of the bytes, and refuses them as `read_ledger` does.
pub fn survey_ledger(alloc: Global, bytes: &[u8]) -> Result<Survey, LedgerFault>
    ensures ok { IfOk result (λ s. (es : List Entry) × HasReadAll bytes.now es s.header × (s.ticks ≡ length es)) }
    ensures line { (n : ℕ) → IsErrOf result (Fault.Line n) → IsWrongLine n bytes.now × IsNoText bytes.now }
{
    let mut reader = LedgerReader::new(alloc, bytes);
    let mut ticks = 0;
    while let Some(line) = reader.next(alloc)? {
        ticks += line.count;
    }
    Ok(Survey {
        header: reader.into_header(),
        ticks,
    })
}

/// The header of the ledger in these bytes.
pub fn header_of(alloc: Global, bytes: &[u8]) -> Result<Header, NoMemory>
    requires { (j : Journal) × IsReadable j × (text_of j ≡ bytes.now) }
    ensures heading { IfOk result (λ h. (j : Journal) → IsReadable j → text_of j ≡ bytes.now → h ≡ j.heading) }
    ensures printable { IfOk result IsPrintable }
{
    let mut reader = LedgerReader::new(alloc, bytes);
    let Ok(_) = reader.next(alloc) else {
        return Err(NoMemory);
    };
    Ok(reader.into_header())
}
