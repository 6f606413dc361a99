//! The beginning of a picture: its size, title, description, style and head.
ghost use Rattle.std.specs.Prelude.{◌≡◌, ◌<◌, ◌≤◌, ◌^◌, ◌++◌, IfOk, OnOk, flat_map, length, string_bytes};
ghost use Rattle.dk_picture.specs.Opening.{bounds_text, desc_end, desc_text, ground_text, head_text, head_words, intro_text, level_words, levels_words, opening_text, process_words, sums_text};

use crate::columns::{Sort, sort_sum};
use crate::elements::{push_line, push_words};
use crate::frame::Frame;
use crate::span::Span;
use crate::style::STYLE;
use dk_certify::TableRow;
use dk_ledger::{Header, LedgerLine, ProcessLine};
use std::alloc::{AllocError, Global};

/// The root and the title. Its width is that of the plot with the columns beside it.
#[tactic(auto, unfolding(crate::specs::Opening::intro_text))]
fn intro_text(alloc: Global, height: u64, head: &str) -> Result<String, AllocError>
    ensures { IfOk result (λ s. string_bytes s ≡ intro_text height head.now) }
{
    format!(in alloc;
        "<svg xmlns='http://www.w3.org/2000/svg' width='1456' height='{height}' viewBox='0 0 1456 {height}' style='max-width:100%;height:auto' role='img' aria-labelledby='a b' font-family='ui-monospace,Menlo,DejaVu Sans Mono,monospace' font-size='11'>
<title id='a'>deosk ledger, {head}</title>
<desc id='b'>"
    )
}

/// Which ticks are drawn, of how many.
#[tactic(auto, unfolding(crate::specs::Opening::bounds_text))]
fn bounds_text(alloc: Global, span: Span, ticks: u32) -> Result<String, AllocError>
    ensures { IfOk result (λ s. string_bytes s ≡ bounds_text span ticks) }
{
    let Span { from, to } = span;
    format!(in alloc; "ticks {from} to {to} of {ticks}")
}

#[tactic(auto, unfolding(crate::specs::Opening::sums_text))]
fn sums_text(
    alloc: Global,
    kernel: u64,
    budget: u64,
    slack: u64,
    idle: u64,
) -> Result<String, AllocError>
    ensures { IfOk result (λ s. string_bytes s ≡ sums_text kernel budget slack idle) }
{
    format!(in alloc; ": kernel {kernel}, budget {budget}, slack {slack}, idle {idle}")
}

/// The words above the picture: the range, and how many ticks of it are of which sort.
#[tactic(auto, unfolding(crate::specs::Opening::head_words))]
fn head_words(
    alloc: Global,
    span: Span,
    ticks: u32,
    groups: &[LedgerLine],
) -> Result<String, AllocError>
    requires { length groups.now < 2 ^ 16 }
    ensures { IfOk result (λ s. string_bytes s ≡ head_words span ticks groups.now) }
{
    let kernel = sort_sum(groups, Sort::Kernel);
    let budget = sort_sum(groups, Sort::Budget);
    let slack = sort_sum(groups, Sort::Slack);
    let idle = sort_sum(groups, Sort::Idle);
    let mut text = bounds_text(alloc, span, ticks)?;
    push_line(&mut text, sums_text(alloc, kernel, budget, slack, idle)?)?;
    Ok(text)
}

#[tactic(auto, unfolding(crate::specs::Opening::level_words))]
fn level_words(alloc: Global, level: u8, row: &TableRow) -> Result<String, AllocError>
    ensures { IfOk result (λ s. string_bytes s ≡ level_words level row.now) }
{
    let TableRow {
        period,
        demand,
        blocking,
        spare,
    } = *row;
    format!(in alloc;
        "level {level} period {period} demand {demand} blocking {blocking} spare {spare}; "
    )
}

/// Adds the lines of the levels.
fn add_levels(alloc: Global, text: &mut String, rows: &[TableRow]) -> Result<(), AllocError>
    requires { length rows.now ≤ 12 }
    ensures { OnOk result (string_bytes text.new ≡ string_bytes text.old ++ levels_words 0 rows.now) }
{
    for (level, row) in rows.iter().enumerate() {
        let line = level_words(alloc, level as u8, row)?;
        push_line(text, line)?;
    }
    Ok(())
}

fn process_words(alloc: Global, line: &ProcessLine) -> Result<String, AllocError>
    ensures { IfOk result (λ s. string_bytes s ≡ process_words line.now) }
{
    let name = line.name.as_str();
    let level = line.level;
    let budget = line.budget;
    format!(in alloc; "process {name} level {level} budget {budget}; ")
}

/// Adds the lines of the processes.
fn add_processes(alloc: Global, text: &mut String, lines: &[ProcessLine]) -> Result<(), AllocError>
    ensures { OnOk result (string_bytes text.new ≡ string_bytes text.old ++ flat_map process_words lines.now) }
{
    for process in lines {
        let line = process_words(alloc, process)?;
        push_line(text, line)?;
    }
    Ok(())
}

/// Adds the description: the header's lines, and the range.
#[tactic(auto, unfolding(crate::specs::Opening::desc_text))]
fn add_desc(
    alloc: Global,
    text: &mut String,
    header: &Header,
    bounds: &str,
) -> Result<(), AllocError>
    requires { length header.now.levels ≤ 12 }
    ensures { OnOk result (string_bytes text.new ≡ string_bytes text.old ++ desc_text header.now bounds.now) }
{
    add_levels(alloc, text, header.levels.as_slice())?;
    add_processes(alloc, text, header.processes.as_slice())?;
    push_line(text, desc_end(alloc, bounds)?)
}

#[tactic(auto, unfolding(crate::specs::Opening::desc_end))]
fn desc_end(alloc: Global, bounds: &str) -> Result<String, AllocError>
    ensures { IfOk result (λ s. string_bytes s ≡ desc_end bounds.now) }
{
    format!(in alloc; "drawn are the {bounds}</desc>\n")
}

/// The ground, and the head on it.
#[tactic(auto, unfolding(crate::specs::Opening::head_text))]
fn head_text(alloc: Global, height: u64, head: &str) -> Result<String, AllocError>
    ensures { IfOk result (λ s. string_bytes s ≡ head_text height head.now) }
{
    format!(in alloc;
        "<rect class='bg' x='0' y='0' width='1456' height='{height}'/>
<text class='b' x='8' y='20'>{head}</text>
"
    )
}

fn style_text(alloc: Global) -> Result<String, AllocError>
    ensures { IfOk result (λ s. string_bytes s ≡ STYLE.now) }
{
    let mut text = String::new(alloc);
    push_words(&mut text, STYLE)?;
    Ok(text)
}

/// The style, the ground and the head.
#[tactic(auto, unfolding(crate::specs::Opening::ground_text))]
fn ground_text(alloc: Global, height: u64, head: &str) -> Result<String, AllocError>
    ensures { IfOk result (λ s. string_bytes s ≡ ground_text height head.now) }
{
    let mut text = style_text(alloc)?;
    push_line(&mut text, head_text(alloc, height, head)?)?;
    Ok(text)
}

/// Adds the beginning of the picture.
#[tactic(auto, unfolding(crate::specs::Opening::opening_text))]
pub(crate) fn add_opening(
    alloc: Global,
    text: &mut String,
    header: &Header,
    frame: Frame,
    span: Span,
    ticks: u32,
    groups: &[LedgerLine],
) -> Result<(), AllocError>
    requires levels { length header.now.levels ≤ 12 }
    requires few { length groups.now < 2 ^ 16 }
    ensures { OnOk result (string_bytes text.new
        ≡ string_bytes text.old ++ opening_text header.now frame span ticks groups.now) }
{
    let head = head_words(alloc, span, ticks, groups)?;
    let bounds = bounds_text(alloc, span, ticks)?;
    push_line(text, intro_text(alloc, frame.height(), head.as_str())?)?;
    add_desc(alloc, text, header, bounds.as_str())?;
    push_line(text, ground_text(alloc, frame.height(), head.as_str())?)
}
