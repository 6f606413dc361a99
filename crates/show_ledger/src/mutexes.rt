//! How long each mutex was held, by whom and from which tick.
ghost use Rattle.std.specs.Prelude.{◌≡◌, ◌++◌, flat_map, map, IfOk, OnOk};
ghost use Rattle.dk_config.specs.Sums.{below};
ghost use Rattle.dk_config.specs.declared.TheConstants.{MAX_MUTEXES as MUTEXES};
ghost use Rattle.dk_ledger.specs.Heading.{IsPrintable};
ghost use Rattle.dk_ledger.specs.Readable.{IsReadable, text_of};
ghost use Rattle.show_rows.specs.Rows.{cell_text};
ghost use Rattle.show_ledger.specs.Holds.{extreme_row, hold_row, holds_text, is_told, mutex_row, mutex_told, row_told, sentence_of, total_told};

use crate::cells::name_at;
use crate::extremes::{Extreme, extreme_hold, measure};
use crate::measuring::{MeasuredHold, holds_of, measured_holds};
use dk_config::{MAX_MUTEXES, MutexRow, NoMemory};
use dk_ledger::{Header, Ledger};
use show_rows::Cell::{Gap, Number, Word};
use show_rows::{Cell, Form, add_note, add_row};
use std::alloc::{AllocError, Global};

const COLUMNS: &str =
    "mutex,hold,holds,longest,longest_process,longest_serial,longest_start,shortest,shortest_process,shortest_serial,shortest_start,own,own_process,own_serial,own_start";

/// A mutex whose row is known.
const KNOWN: &str =
    "mutex {mutex} hold {hold} holds {holds} longest {longest} by {longest_process}.{longest_serial} from {longest_start} shortest {shortest} by {shortest_process}.{shortest_serial} from {shortest_start} own {own} by {own_process}.{own_serial} from {own_start}\n";

/// One that nobody held.
const UNHELD: &str = "mutex {mutex} hold {hold} holds {holds}\n";

/// One whose row isn't known.
const UNKNOWN: &str =
    "mutex {mutex} holds {holds} longest {longest} by {longest_process}.{longest_serial} from {longest_start} shortest {shortest} by {shortest_process}.{shortest_serial} from {shortest_start} own {own} by {own_process}.{own_serial} from {own_start}\n";

const TOTAL_COLUMNS: &str = "holds";

const TOTAL: &str = "holds {holds}\n";

/// What is compared of a hold, by whom it is, and its first tick.
fn hold_cells<'a>(header: &'a Header, ticks: u32, measured: &MeasuredHold) -> [Cell<'a>; 4]
    requires { IsPrintable header.now }
    ensures { map cell_text result ≡ hold_row header.now ticks measured.now }
{
    [
        Number(ticks as u64),
        Word(name_at(header, measured.hold.thread.process)),
        Number(measured.hold.thread.serial as u64),
        Number(measured.hold.start as u64),
    ]
}

/// The extreme one of these holds, if there are any.
fn extreme_cells<'a>(header: &'a Header, extreme: Extreme, holds: &[MeasuredHold]) -> [Cell<'a>; 4]
    requires { IsPrintable header.now }
    ensures { map cell_text result ≡ extreme_row header.now extreme holds.now }
{
    match extreme_hold(extreme, holds) {
        Some(found) => hold_cells(header, measure(extreme, &found), &found),
        None => [Gap, Gap, Gap, Gap],
    }
}

/// Its name and the longest hold that it may have, where they are known; else its number.
fn mutex_cells(rows: &[MutexRow], mutex: u8) -> [Cell; 2]
    ensures { map cell_text result ≡ mutex_row rows.now mutex }
{
    match rows.get(mutex as usize) {
        Some(row) => [Word(row.name.as_str()), Number(row.hold as u64)],
        None => [Number(mutex as u64), Gap],
    }
}

fn sentence_of(rows: &[MutexRow], mutex: u8, holds: &[MeasuredHold]) -> &'static str
    ensures { result.now ≡ sentence_of rows.now mutex holds.now }
{
    if (mutex as usize) >= rows.len() {
        UNKNOWN
    } else if holds.len() > 0 {
        KNOWN
    } else {
        UNHELD
    }
}

/// Whether it has a line: its row is known, or it was held.
fn is_told(rows: &[MutexRow], mutex: u8, holds: &[MeasuredHold]) -> bool
    ensures { result ≡ is_told rows.now mutex holds.now }
{
    (mutex as usize) < rows.len() || holds.len() > 0
}

/// The line of a mutex with these holds.
fn add_holds<'a>(
    alloc: Global,
    out: &mut Vec<u8>,
    rows: &'a [MutexRow],
    header: &'a Header,
    mutex: u8,
    holds: &[MeasuredHold],
) -> Result<(), AllocError>
    requires { IsPrintable header.now }
    ensures { OnOk result (out.new.items ≡ out.old.items ++ row_told rows.now header.now mutex holds.now) }
{
    let sentence = sentence_of(rows, mutex, holds);
    let mut cells = Vec::from_array(alloc, mutex_cells(rows, mutex))?;
    cells.push(Number(holds.len() as u64))?;
    cells.extend_from_slice(&extreme_cells(header, Extreme::Longest, holds))?;
    cells.extend_from_slice(&extreme_cells(header, Extreme::Shortest, holds))?;
    cells.extend_from_slice(&extreme_cells(header, Extreme::MostOwn, holds))?;
    add_row(alloc, out, Form::Line, COLUMNS, sentence, cells.as_slice())
}

/// The line of a mutex, if it has one.
fn add_mutex(
    alloc: Global,
    out: &mut Vec<u8>,
    rows: &[MutexRow],
    header: &Header,
    all: &[MeasuredHold],
    mutex: u8,
) -> Result<(), AllocError>
    requires { IsPrintable header.now }
    ensures { OnOk result (out.new.items ≡ out.old.items ++ mutex_told rows.now header.now all.now mutex) }
{
    let holds = holds_of(alloc, mutex, all)?;
    if is_told(rows, mutex, holds.as_slice()) {
        add_holds(alloc, out, rows, header, mutex, holds.as_slice())
    } else {
        Ok(())
    }
}

fn add_mutexes(
    alloc: Global,
    out: &mut Vec<u8>,
    rows: &[MutexRow],
    header: &Header,
    all: &[MeasuredHold],
) -> Result<(), AllocError>
    requires { IsPrintable header.now }
    ensures { OnOk result (out.new.items
        ≡ out.old.items ++ flat_map (mutex_told rows.now header.now all.now) (below MUTEXES)) }
{
    for mutex in 0..MAX_MUTEXES as u8 {
        add_mutex(alloc, out, rows, header, all, mutex)?;
    }
    Ok(())
}

/// How many holds there are.
fn add_total(alloc: Global, out: &mut Vec<u8>, holds: usize) -> Result<(), AllocError>
    ensures { OnOk result (out.new.items ≡ out.old.items ++ total_told holds) }
{
    let cells = [Number(holds as u64)];
    add_note(alloc, out, Form::Line, TOTAL_COLUMNS, TOTAL, &cells)
}

/// Of each mutex of a ledger that was read of these bytes how many holds it had, and of these the longest, the shortest,
/// and the one in which its thread had the most ticks, each with the thread and its first tick; and how many holds there
/// are of all. A mutex is named where its row is given, with the longest hold that it may have, and then it has a line
/// also where nobody held it; else it is told by its number. `Err` is want of memory.
pub fn holds(
    alloc: Global,
    bytes: &[u8],
    ledger: &Ledger,
    rows: &[MutexRow],
) -> Result<Vec<u8>, NoMemory>
    requires readable { IsReadable ledger.now }
    requires text { text_of ledger.now ≡ bytes.now }
    ensures { IfOk result (λ v. v.items ≡ holds_text rows.now ledger.now.heading ledger.now.entries) }
{
    let all = measured_holds(alloc, bytes, ledger)?;
    let mut out = Vec::new(alloc);
    add_mutexes(alloc, &mut out, rows, &ledger.header, all.as_slice())?;
    add_total(alloc, &mut out, all.len())?;
    Ok(out)
}
