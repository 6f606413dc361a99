//! The windows that were overrun.
ghost use Rattle.std.specs.Prelude.{◌≡◌, ◌/◌};
ghost use Rattle.dk_outside.specs.Written.{Writes};
ghost use Rattle.dk_trace_events.specs.OverrunInstants.{is_shown, overrun_instant, overruns_text, shown_overrun, window_of};

use crate::line::Line;
use crate::tracks::{push_place, thread_track};
use dk_outside::{Sink, SinkError};
use dk_overrun_spans::Overrun;

/// The number of the window among those of its level, from 0.
fn window_of(overrun: Overrun) -> u32
    ensures { result ≡ window_of overrun }
{
    if overrun.period == 0 {
        0
    } else {
        overrun.start / overrun.period
    }
}

fn instant_of(overrun: Overrun) -> Line
    ensures { result ≡ overrun_instant overrun }
{
    let window = window_of(overrun) as u64;
    let mut text = Line::new();
    text.word("{\"args\":{\"window\":");
    text.number(window);
    text.word("},\"cat\":\"overrun\",\"name\":\"overran window ");
    text.number(window);
    text.word("\",\"ph\":\"i\",\"s\":\"t\"");
    push_place(&mut text, thread_track(overrun.thread));
    text.word(",\"ts\":");
    text.number(overrun.last as u64);
    text.word("},\n");
    text
}

/// Whether its last tick is in the range.
fn is_shown(from: u32, to: u32, overrun: Overrun) -> bool
    ensures { result ≡ is_shown from to overrun }
{
    from <= overrun.last && overrun.last < to
}

fn write_overrun<S: Sink>(
    from: u32,
    to: u32,
    overrun: Overrun,
    sink: &mut S,
) -> Result<(), SinkError>
    ensures { Writes (S.seen sink.old) (S.seen sink.new) result (shown_overrun from to overrun) }
{
    if is_shown(from, to, overrun) {
        instant_of(overrun).write_to(sink)
    } else {
        Ok(())
    }
}

/// Writes those of which the last tick is in the range.
pub(crate) fn write_overruns<S: Sink>(
    from: u32,
    to: u32,
    overruns: &[Overrun],
    sink: &mut S,
) -> Result<(), SinkError>
    ensures { Writes (S.seen sink.old) (S.seen sink.new) result (overruns_text from to overruns.now) }
{
    for place in 0..overruns.len() {
        write_overrun(from, to, overruns[place], sink)?;
    }
    Ok(())
}
