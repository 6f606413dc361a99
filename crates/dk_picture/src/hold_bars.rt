//! The rows of the mutexes that are held, and a bar for each hold.
ghost use Rattle.std.specs.Prelude.{◌≡◌, ◌==◌, ◌<◌, ◌≤◌, ◌+◌, ◌++◌, IfOk, IfSome, OnOk, length, position, string_bytes};
ghost use Rattle.std.specs.List.{list_any};
ghost use Rattle.dk_picture.specs.HoldBars.{hold_bar, hold_bar_text, hold_bars, hold_bars_text, hold_words, is_of_mutex, mutex_row, mutex_rows, row_of_mutex};

use crate::elements::{Place, push_line, titled_rect};
use crate::frame::Frame;
use crate::lines::thread_words;
use dk_config::{MAX_MUTEXES, NoMemory};
use dk_hold_spans::Hold;
use dk_ledger::Header;
use std::alloc::{AllocError, Global};

fn is_held(holds: &[Hold], mutex: u8) -> bool
    ensures { result ≡ list_any (is_of_mutex mutex) holds.now }
{
    for hold in holds {
        if hold.mutex == mutex {
            return true;
        }
    }
    false
}

/// Adds the mutex where it is held.
fn add_row(rows: &mut Vec<u8>, holds: &[Hold], mutex: u8) -> Result<(), NoMemory>
    ensures row { OnOk result (rows.new.items ≡ rows.old.items ++ row_of_mutex holds.now mutex) }
    ensures few { OnOk result (length rows.new.items ≤ length rows.old.items + 1) }
{
    if is_held(holds, mutex) {
        rows.push(mutex)?;
    }
    Ok(())
}

/// The mutexes that are held, each once.
pub(crate) fn mutex_rows(alloc: Global, holds: &[Hold]) -> Result<Vec<u8>, NoMemory>
    ensures rows { IfOk result (λ rows. rows.items ≡ mutex_rows holds.now) }
    ensures few { IfOk result (λ rows. length rows.items ≤ 16) }
{
    let mut rows = Vec::new(alloc);
    for mutex in 0..MAX_MUTEXES as u8 {
        add_row(&mut rows, holds, mutex)?;
    }
    Ok(rows)
}

fn position_of(rows: &[u8], mutex: u8) -> Option<usize>
    ensures found { result ≡ position (λ k. k == mutex) rows.now }
    ensures exists { IfSome result (λ i. i < length rows.now) }
{
    rows.iter().position(|row| *row == mutex)
}

/// The number of the mutex's row.
pub(crate) fn mutex_row(rows: &[u8], mutex: u8) -> u8
    requires { length rows.now ≤ 16 }
    ensures { result ≡ mutex_row rows.now mutex }
{
    match position_of(rows, mutex) {
        Some(row) => row as u8,
        None => 0,
    }
}

#[tactic(auto, unfolding(crate::specs::HoldBars::hold_words))]
fn hold_words(
    alloc: Global,
    start: u32,
    count: u32,
    thread: &str,
    mutex: u8,
) -> Result<String, AllocError>
    ensures { IfOk result (λ s. string_bytes s ≡ hold_words start count thread.now mutex) }
{
    format!(in alloc; "{start} {count} {thread} holds {mutex}")
}

/// The bar of the hold, in the row of its mutex.
fn bar(
    alloc: Global,
    header: &Header,
    frame: Frame,
    rows: &[u8],
    from: u32,
    hold: Hold,
) -> Result<String, AllocError>
    requires { length rows.now ≤ 16 }
    ensures { IfOk result (λ s. string_bytes s ≡ hold_bar_text frame (hold_bar header.now rows.now from hold)) }
{
    let count = hold.end.saturating_sub(hold.start);
    let thread = thread_words(alloc, header, hold.thread)?;
    let title = hold_words(alloc, hold.start, count, thread.as_str(), hold.mutex)?;
    let place = Place {
        x: hold.start.saturating_sub(from) as u64,
        y: frame.mutex_top(mutex_row(rows, hold.mutex)),
        width: count as u64,
        height: 10,
    };
    titled_rect(alloc, "h", place, title.as_str())
}

/// Adds the bars of the holds, one after another.
pub(crate) fn add_hold_bars(
    alloc: Global,
    text: &mut String,
    header: &Header,
    frame: Frame,
    rows: &[u8],
    from: u32,
    holds: &[Hold],
) -> Result<(), AllocError>
    requires { length rows.now ≤ 16 }
    ensures { OnOk result (string_bytes text.new
        ≡ string_bytes text.old ++ hold_bars_text frame (hold_bars header.now rows.now from holds.now)) }
{
    for hold in holds {
        let line = bar(alloc, header, frame, rows, from, *hold)?;
        push_line(text, line)?;
    }
    Ok(())
}
