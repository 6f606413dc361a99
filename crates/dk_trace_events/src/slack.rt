//! How much slack was used: a counter in the viewer.
ghost use Rattle.std.specs.Prelude.{List, ◌≡◌, ◌+◌, ◌<◌, ◌≤◌, ◌^◌, ◌++◌, ◌∷◌, [], if◌then◌else◌, length};
ghost use Rattle.dk_outside.specs.Written.{Writes};
ghost use Rattle.dk_ledger.specs.declared.line.LedgerLine.{LedgerLine as Group};
ghost use Rattle.dk_trace_events.specs.SlackPoints.{is_as_before, is_reclaimed, is_timeline, point_text, point_where, slack_in, start_point};

use crate::line::Line;
use dk_ledger::LedgerLine;
use dk_outside::{Sink, SinkError};
use dk_trace::{Label, Source};

/// How many ticks were on slack, by where they came from.
#[derive(Clone, Copy)]
pub(crate) struct SlackUsed {
    pub(crate) timeline: u32,
    pub(crate) reclaimed: u32,
}

/// The ticks of the group that are on slack of the timeline.
fn timeline_ticks(group: LedgerLine) -> u32
    ensures ticks { result ≡ (if is_timeline group.label then group.count else 0) }
    ensures few { result ≤ group.count }
{
    match group.label {
        Label::Slack {
            source: Source::Timeline,
            ..
        } => group.count,
        _ => 0,
    }
}

/// The ticks of the group that are on slack of those that were done early.
fn reclaimed_ticks(group: LedgerLine) -> u32
    ensures ticks { result ≡ (if is_reclaimed group.label then group.count else 0) }
    ensures few { result ≤ group.count }
{
    match group.label {
        Label::Slack {
            source: Source::Reclaimed(_),
            ..
        } => group.count,
        _ => 0,
    }
}

impl SlackUsed {
    pub(crate) fn none() -> SlackUsed
        ensures { result ≡ slack_in [] }
    {
        SlackUsed {
            timeline: 0,
            reclaimed: 0,
        }
    }

    /// That of one group more.
    pub(crate) fn with_group(self, group: LedgerLine) -> SlackUsed
        requires some { 0 < group.count }
        requires timeline { self.timeline + group.count < 2 ^ 32 }
        requires reclaimed { self.reclaimed + group.count < 2 ^ 32 }
        ensures { (before : List Group) → self ≡ slack_in before → result ≡ slack_in (before ++ group ∷ []) }
    {
        SlackUsed {
            timeline: self.timeline + timeline_ticks(group),
            reclaimed: self.reclaimed + reclaimed_ticks(group),
        }
    }
}

/// A point of the counter: its value from this tick on.
fn push_point(text: &mut Line, tick: u32, used: SlackUsed)
    requires { length text.old + 140 ≤ 600 }
    ensures bytes { text.new ≡ text.old ++ point_text tick used }
    ensures len { length text.new ≤ length text.old + 140 }
{
    text.word("{\"args\":{\"reclaimed\":");
    text.number(used.reclaimed as u64);
    text.word(",\"timeline\":");
    text.number(used.timeline as u64);
    text.word("},\"name\":\"slack\",\"ph\":\"C\",\"pid\":1,\"ts\":");
    text.number(tick as u64);
    text.word("},\n");
}

fn point_of(tick: u32, used: SlackUsed) -> Line
    ensures { result ≡ point_text tick used }
{
    let mut text = Line::new();
    push_point(&mut text, tick, used);
    text
}

/// Writes the point with which the counter begins, at the first group.
pub(crate) fn write_start<S: Sink>(first: Option<LedgerLine>, sink: &mut S) -> Result<(), SinkError>
    ensures { Writes (S.seen sink.old) (S.seen sink.new) result (start_point first) }
{
    match first {
        Some(group) => point_of(group.start, SlackUsed::none()).write_to(sink),
        None => Ok(()),
    }
}

fn is_as_before(old: SlackUsed, new: SlackUsed) -> bool
    ensures { result ≡ is_as_before old new }
{
    new.timeline == old.timeline && new.reclaimed == old.reclaimed
}

/// Writes a point at the tick where the value was the old one up to there, and the new one is another.
pub(crate) fn write_point<S: Sink>(
    tick: u32,
    old: SlackUsed,
    new: SlackUsed,
    sink: &mut S,
) -> Result<(), SinkError>
    ensures { Writes (S.seen sink.old) (S.seen sink.new) result (point_where tick old new) }
{
    if is_as_before(old, new) {
        Ok(())
    } else {
        point_of(tick, new).write_to(sink)
    }
}
