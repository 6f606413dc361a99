//! The bars: one for each group, in an inner picture in which a unit of x is a tick.
ghost use Rattle.std.specs.Prelude.{◌≡◌, ◌≤◌, ◌++◌, IfOk, OnOk, string_bytes};
ghost use Rattle.dk_picture.specs.Bars.{bar_of, bar_text, bars, bars_text, class_of, height_of, plot_class, plot_head, plot_text, shift_of, slack_class};
ghost use Rattle.dk_picture.specs.HoldBars.{hold_bars};

use crate::drawing::Drawing;
use crate::elements::{Place, push_line, titled_rect};
use crate::frame::Frame;
use crate::hold_bars::add_hold_bars;
use crate::lines::line_words;
use crate::rows::Rows;
use crate::span::Span;
use dk_ledger::{Header, LedgerLine};
use dk_trace::{Label, Source, Work};
use std::alloc::{AllocError, Global};

/// The class of a label's bar: its work, and of slack its source before it.
fn class_of(label: Label) -> &'static str
    ensures { result.now ≡ class_of label }
{
    match label {
        Label::Kernel(_) => "k",
        Label::In(_) => "n",
        Label::Run(_) => "r",
        Label::Call(_) => "c",
        Label::Out(_) => "o",
        Label::Slack { source, work, .. } => slack_class(source, work),
        Label::Idle => "i",
    }
}

fn slack_class(source: Source, work: Work) -> &'static str
    ensures { result.now ≡ slack_class source work }
{
    match (source, work) {
        (Source::Timeline, Work::In) => "tn",
        (Source::Timeline, Work::Run) => "tr",
        (Source::Timeline, Work::Call) => "tc",
        (Source::Reclaimed(_), Work::In) => "rn",
        (Source::Reclaimed(_), Work::Run) => "rr",
        (Source::Reclaimed(_), Work::Call) => "rc",
    }
}

/// A switch into a thread is drawn in the lower half of its row.
pub(crate) fn shift_of(label: Label) -> u64
    ensures value { result ≡ shift_of label }
    ensures small { result ≤ 6 }
{
    match label {
        Label::In(_) | Label::Slack { work: Work::In, .. } => 6,
        _ => 0,
    }
}

/// A switch is half as high as other work.
pub(crate) fn height_of(label: Label) -> u64
    ensures { result ≡ height_of label }
{
    match label {
        Label::In(_) | Label::Out(_) | Label::Slack { work: Work::In, .. } => 6,
        _ => 12,
    }
}

/// The group's bar. Its title is the line of the ledger that it would be.
fn bar(
    alloc: Global,
    header: &Header,
    frame: Frame,
    rows: &Rows,
    from: u32,
    group: LedgerLine,
) -> Result<String, AllocError>
    ensures { IfOk result (λ s. string_bytes s ≡ bar_text frame (bar_of header.now rows.now from group)) }
{
    let title = line_words(alloc, header, group)?;
    let place = Place {
        x: group.start.saturating_sub(from) as u64,
        y: frame.top(rows.at(group.label)) + shift_of(group.label),
        width: group.count as u64,
        height: height_of(group.label),
    };
    titled_rect(alloc, class_of(group.label), place, title.as_str())
}

/// Adds the bars of the groups, one after another.
pub(crate) fn add_bars(
    alloc: Global,
    text: &mut String,
    header: &Header,
    frame: Frame,
    rows: &Rows,
    from: u32,
    groups: &[LedgerLine],
) -> Result<(), AllocError>
    ensures { OnOk result (string_bytes text.new
        ≡ string_bytes text.old ++ bars_text frame (bars header.now rows.now from groups.now)) }
{
    for group in groups {
        let line = bar(alloc, header, frame, rows, from, *group)?;
        push_line(text, line)?;
    }
    Ok(())
}

/// The beginning of the inner picture, in which a unit of x is a tick.
#[tactic(auto, unfolding(crate::specs::Bars::plot_head))]
fn plot_head(alloc: Global, class: &str, ticks: u64, height: u64) -> Result<String, AllocError>
    ensures { IfOk result (λ s. string_bytes s ≡ plot_head class.now ticks height) }
{
    format!(in alloc;
        "<svg class='{class}' x='200' width='960' height='{height}' viewBox='0 0 {ticks} {height}' preserveAspectRatio='none'>\n"
    )
}

/// Where a tick has fewer than 3 pixels each bar is a little wider than it is, so that it is seen.
fn plot_class(span: Span) -> &'static str
    ensures { result.now ≡ plot_class span }
{
    if span.has_pixels(1, 3) { "a" } else { "d" }
}

/// Adds the inner picture.
#[tactic(auto, unfolding(crate::specs::Bars::plot_text))]
pub(crate) fn add_plot(
    alloc: Global,
    text: &mut String,
    header: &Header,
    frame: Frame,
    span: Span,
    drawing: &Drawing,
) -> Result<(), AllocError>
    ensures { OnOk result (string_bytes text.new ≡ string_bytes text.old
        ++ plot_text frame span (bars header.now drawing.now.rows span.from drawing.now.groups)
        (hold_bars header.now drawing.now.mutexes span.from drawing.now.holds)) }
{
    push_line(
        text,
        plot_head(alloc, plot_class(span), span.ticks(), frame.height())?,
    )?;
    add_bars(
        alloc,
        text,
        header,
        frame,
        drawing.rows(),
        span.from,
        drawing.groups(),
    )?;
    add_hold_bars(
        alloc,
        text,
        header,
        frame,
        drawing.mutexes(),
        span.from,
        drawing.holds(),
    )?;
    text.push_str("</svg>\n")
}
