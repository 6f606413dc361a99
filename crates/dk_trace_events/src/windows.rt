//! The windows of the levels.
ghost use Rattle.std.specs.Prelude.{◌≡◌, ◌+◌, ◌-◌, ◌*◌, ◌/◌, ◌<◌, ◌≤◌, ◌++◌, flat_map, length};
ghost use Rattle.dk_config.specs.Sums.{numbers};
ghost use Rattle.dk_outside.specs.Written.{Writes};
ghost use Rattle.dk_trace_events.specs.LevelWindows.{level_name, level_order, level_text, level_texts, level_track, shown_window, window_slice, windows_of};

use crate::line::Line;
use crate::tracks::{Track, push_place};
use dk_certify::TableRow;
use dk_outside::{Sink, SinkError};

fn level_track(level: u8) -> Track
    ensures { result ≡ level_track level }
{
    Track {
        pid: 1,
        tid: 10 + level as u64,
    }
}

fn push_level_name(text: &mut Line, level: u8, period: u32)
    requires { length text.old + 160 ≤ 600 }
    ensures bytes { text.new ≡ text.old ++ level_name level period }
    ensures len { length text.new ≤ length text.old + 160 }
{
    text.word("{\"args\":{\"name\":\"level ");
    text.number(level as u64);
    text.word(" period ");
    text.number(period as u64);
    text.word("\"},\"name\":\"thread_name\",\"ph\":\"M\"");
    push_place(text, level_track(level));
    text.word("},\n");
}

fn push_level_order(text: &mut Line, level: u8)
    requires { length text.old + 150 ≤ 600 }
    ensures bytes { text.new ≡ text.old ++ level_order level }
    ensures len { length text.new ≤ length text.old + 150 }
{
    text.word("{\"args\":{\"sort_index\":");
    text.number(2 + level as u64);
    text.word("},\"name\":\"thread_sort_index\",\"ph\":\"M\"");
    push_place(text, level_track(level));
    text.word("},\n");
}

/// What names the track of a level.
fn level_named(level: u8, period: u32) -> Line
    ensures { result ≡ level_name level period ++ level_order level }
{
    let mut text = Line::new();
    push_level_name(&mut text, level, period);
    push_level_order(&mut text, level);
    text
}

/// The slice of the ticks from `first` up to before `last` of a window.
fn slice_of_window(level: u8, window: u64, first: u64, last: u64) -> Line
    requires { first < last }
    ensures { result ≡ window_slice level window first last }
{
    let mut text = Line::new();
    text.word("{\"args\":{\"window\":");
    text.number(window);
    text.word("},\"cat\":\"window\",\"dur\":");
    text.number(last - first);
    text.word(",\"name\":\"window ");
    text.number(window);
    text.word("\",\"ph\":\"X\"");
    push_place(&mut text, level_track(level));
    text.word(",\"ts\":");
    text.number(first);
    text.word("},\n");
    text
}

/// What is shown of a window: its ticks in the range.
fn text_of_window(from: u32, to: u32, level: u8, period: u32, window: u64) -> Line
    requires { window * period ≤ to }
    ensures { result ≡ shown_window from to level period window }
{
    let begins = window * period as u64;
    let first = begins.max(from as u64);
    let last = (begins + period as u64).min(to as u64);
    if first < last {
        slice_of_window(level, window, first, last)
    } else {
        Line::new()
    }
}

/// Writes a window, where it has a tick in the range.
fn write_window<S: Sink>(
    from: u32,
    to: u32,
    level: u8,
    period: u32,
    window: u64,
    sink: &mut S,
) -> Result<(), SinkError>
    requires { window * period ≤ to }
    ensures { Writes (S.seen sink.old) (S.seen sink.new) result (shown_window from to level period window) }
{
    text_of_window(from, to, level, period, window).write_to(sink)
}

/// Writes the windows of a level from that of tick `from` up to that of tick `to`.
fn write_windows<S: Sink>(
    from: u32,
    to: u32,
    level: u8,
    period: u32,
    sink: &mut S,
) -> Result<(), SinkError>
    requires { 0 < period }
    ensures { Writes (S.seen sink.old) (S.seen sink.new) result
        (flat_map (shown_window from to level period) (numbers (from / period) (to / period + 1 - from / period))) }
{
    for window in (from / period) as u64..(to / period) as u64 + 1 {
        write_window(from, to, level, period, window, sink)?;
    }
    Ok(())
}

fn write_windows_of<S: Sink>(
    from: u32,
    to: u32,
    level: u8,
    period: u32,
    sink: &mut S,
) -> Result<(), SinkError>
    ensures { Writes (S.seen sink.old) (S.seen sink.new) result (windows_of from to level period) }
{
    if period == 0 {
        return Ok(());
    }
    write_windows(from, to, level, period, sink)
}

fn write_level<S: Sink>(
    from: u32,
    to: u32,
    level: u8,
    row: TableRow,
    sink: &mut S,
) -> Result<(), SinkError>
    ensures { Writes (S.seen sink.old) (S.seen sink.new) result (level_text from to level row) }
{
    level_named(level, row.period).write_to(sink)?;
    write_windows_of(from, to, level, row.period, sink)
}

/// Writes the tracks of the levels from this one on, with their windows in the range.
pub(crate) fn write_levels<S: Sink>(
    from: u32,
    to: u32,
    level: u8,
    rows: &[TableRow],
    sink: &mut S,
) -> Result<(), SinkError>
    requires { level + length rows.now ≤ 200 }
    ensures { Writes (S.seen sink.old) (S.seen sink.new) result (level_texts from to level rows.now) }
{
    match rows {
        [] => Ok(()),
        [row, rest @ ..] => {
            write_level(from, to, level, *row, sink)?;
            write_levels(from, to, level + 1, rest, sink)
        }
    }
}
