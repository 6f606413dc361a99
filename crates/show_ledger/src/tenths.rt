//! In how many of its windows each main used so many tenths of its budget.
ghost use Rattle.std.specs.Prelude.{ℕ, List, [], ◌≡◌, ◌+◌, ◌<◌, ◌≤◌, ◌++◌, decimal, flat_map, length, map, reverse, IfOk, IsErrOf, OnOk};
ghost use Rattle.dk_config.specs.Sums.{below};
ghost use Rattle.dk_config.specs.declared.TheConstants.{MAX_RUN_TICKS};
ghost use Rattle.dk_trace.specs.declared.Entry.{Entry};
ghost use Rattle.dk_ledger.specs.declared.ledger.LedgerFault.{LedgerFault as Fault};
ghost use Rattle.dk_ledger.specs.Heading.{IsPrintable};
ghost use Rattle.dk_ledger.specs.Readable.{IsNoText, IsWrongLine};
ghost use Rattle.dk_ledger.specs.ReadSoFar.{ComesNext};
ghost use Rattle.show_rows.specs.Rows.{cell_text};
ghost use Rattle.show_ledger.specs.TenthsTable.{IsTableIn, main_told, process_told, tenths_csv};
ghost use Rattle.show_ledger.specs.Told.{AreTold, AreToldIn, IsTold};

use crate::cells::name_at;
use crate::mains::{new_mains, take_line};
use crate::told::{Told, told_at};
use dk_config::{MAX_RUN_TICKS, NoMemory};
use dk_ledger::{Header, LedgerFault, LedgerLine, LedgerReader};
use show_rows::Cell::{Number, Word};
use show_rows::{Cell, Form, add_columns, add_row};
use std::alloc::{AllocError, Global};

const COLUMNS: &str =
    "process,windows,tenth_0,tenth_1,tenth_2,tenth_3,tenth_4,tenth_5,tenth_6,tenth_7,tenth_8,tenth_9,tenth_10";

/// There is no line of a text.
const NO_SENTENCE: &str = "";

fn add_numbers(cells: &mut Vec<Cell>, numbers: &[u32]) -> Result<(), AllocError>
    ensures texts { OnOk result (map cell_text cells.new.items ≡ map cell_text cells.old.items ++ map decimal numbers.now) }
    ensures more { OnOk result (length cells.old.items ≤ length cells.new.items) }
{
    for number in numbers {
        cells.push(Number(*number as u64))?;
    }
    Ok(())
}

/// The record of a main whose process has this name.
fn add_main(alloc: Global, out: &mut Vec<u8>, name: &str, told: &Told) -> Result<(), AllocError>
    ensures { OnOk result (out.new.items ≡ out.old.items ++ main_told name.now told.now.row.counts.windows told.now.tenths) }
{
    let windows = told.row.counts.windows;
    let mut cells = Vec::from_array(alloc, [Word(name), Number(windows as u64)])?;
    add_numbers(&mut cells, &told.tenths)?;
    add_row(
        alloc,
        out,
        Form::Record,
        COLUMNS,
        NO_SENTENCE,
        cells.as_slice(),
    )
}

/// The record of a process, whose main is told up to its last entry but for ticks in which nothing happened to it.
fn add_process(
    alloc: Global,
    out: &mut Vec<u8>,
    header: &Header,
    process: u8,
    ticks: u32,
    told: &Told,
) -> Result<(), AllocError>
    requires printable { IsPrintable header.now }
    requires few { ticks ≤ MAX_RUN_TICKS }
    ensures { OnOk result ((past : List Entry) → IsTold header.now past process told.now → ticks ≡ length past
        → out.new.items ≡ out.old.items ++ process_told header.now past process) }
{
    let now = told_at(ticks, *told);
    add_main(alloc, out, name_at(header, process), &now)
}

/// A record for each process.
fn add_processes(
    alloc: Global,
    out: &mut Vec<u8>,
    header: &Header,
    ticks: u32,
    mains: &[Told],
) -> Result<(), AllocError>
    requires printable { IsPrintable header.now }
    requires few { ticks ≤ MAX_RUN_TICKS }
    requires number { length mains.now ≡ length header.now.processes }
    ensures { OnOk result ((past : List Entry) → AreTold header.now past mains.now → ticks ≡ length past
        → out.new.items ≡ out.old.items ++ flat_map (process_told header.now past) (below (length mains.now))) }
{
    for process in 0..mains.len() {
        add_process(alloc, out, header, process as u8, ticks, &mains[process])?;
    }
    Ok(())
}

/// The table of so many ticks. `Err` is want of memory.
fn table_of(alloc: Global, header: &Header, ticks: u32, mains: &[Told]) -> Result<Vec<u8>, NoMemory>
    requires printable { IsPrintable header.now }
    requires few { ticks ≤ MAX_RUN_TICKS }
    requires number { length mains.now ≡ length header.now.processes }
    ensures { IfOk result (λ v. (past : List Entry) → AreTold header.now past mains.now → ticks ≡ length past
        → v.items ≡ tenths_csv header.now past) }
{
    let mut out = Vec::new(alloc);
    add_columns(&mut out, Form::Record, COLUMNS)?;
    add_processes(alloc, &mut out, header, ticks, mains)?;
    Ok(out)
}

/// Takes the entries of this line, and of all lines behind it, and tells how many they are.
fn take_lines(
    reader: &mut LedgerReader,
    alloc: Global,
    bytes: &[u8],
    first: Option<LedgerLine>,
    mains: &mut Vec<Told>,
) -> Result<u32, LedgerFault>
    requires next { ComesNext bytes.now [] first reader.old }
    requires none { AreTold reader.old.kept.heading [] mains.old.items }
    ensures told { IfOk result (AreToldIn bytes.now reader.new.kept.heading mains.new.items) }
    ensures heading { OnOk result (reader.new.kept.heading ≡ reader.old.kept.heading) }
    ensures line { (n : ℕ) → IsErrOf result (Fault.Line n) → IsWrongLine n bytes.now × IsNoText bytes.now }
{
    let _bytes = bytes;
    let mut ticks = 0;
    let mut next = first;
    while let Some(line) = next {
        take_line(mains, line);
        ticks = line.start + line.count;
        next = reader.next(alloc)?;
    }
    Ok(ticks)
}

/// Of the ledger in these bytes, a table of how many windows of each main have ended, and in how many of them it used
/// nothing, one tenth of its budget, two tenths and so on up to ten: a record for each process. The bytes are read once,
/// line by line. It takes some 130 bytes for each main, and the table.
///
/// `Line` names the first line, counted from 1, by which the bytes are the text of no ledger, as `read_ledger` does.
pub fn tenths_csv(alloc: Global, bytes: &[u8]) -> Result<Vec<u8>, LedgerFault>
    ensures told { IfOk result (λ v. IsTableIn bytes.now v.items) }
    ensures line { (n : ℕ) → IsErrOf result (Fault.Line n) → IsWrongLine n bytes.now × IsNoText bytes.now }
{
    let mut reader = LedgerReader::new(alloc, bytes);
    let first = reader.next(alloc)?;
    let mut mains = new_mains(alloc, reader.header())?;
    let ticks = take_lines(&mut reader, alloc, bytes, first, &mut mains)?;
    let text = table_of(alloc, reader.header(), ticks, mains.as_slice())?;
    Ok(text)
}
