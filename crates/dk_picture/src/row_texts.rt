//! The rows with their names and numbers.
ghost use Rattle.std.specs.Prelude.{◌≡◌, ◌≤◌, ◌<◌, ◌^◌, ◌++◌, IfOk, OnOk, codes, length, string_bytes};
ghost use Rattle.dk_picture.specs.RowTexts.{counted, counts_text, is_same_level, lane_class, level_line, name_line, name_text, pair_text, row_level, row_name, row_text, rows_head, rows_text, terms_part, terms_text};

use crate::columns::{Column, column_sum};
use crate::drawing::Drawing;
use crate::elements::{Place, number_at, push_line, rect};
use crate::frame::Frame;
use crate::lines::{name_of, thread_words};
use crate::row_list::level_of;
use crate::rows::Row;
use crate::span::Span;
use crate::terms::{Terms, period_of, terms_of};
use crate::windows::add_own_windows;
use dk_ledger::{Header, LedgerLine};
use std::alloc::{AllocError, Global};

fn children_name(alloc: Global, name: &str) -> Result<String, AllocError>
    ensures { IfOk result (λ s. string_bytes s ≡ name.now ++ codes ".*") }
{
    format!(in alloc; "{name}.*")
}

fn row_name(alloc: Global, header: &Header, row: Row) -> Result<String, AllocError>
    ensures { IfOk result (λ s. string_bytes s ≡ row_name header.now row) }
{
    match row {
        Row::Kernel => String::from_str(alloc, "kernel"),
        Row::Thread(thread) => thread_words(alloc, header, thread),
        Row::Children(process) => children_name(alloc, name_of(header, process)),
    }
}

/// What a thread may use of windows of so many ticks, and in windows of which level.
#[tactic(auto, unfolding(crate::specs::RowTexts::pair_text))]
fn pair(alloc: Global, y: u64, budget: u32, period: u32, level: u8) -> Result<String, AllocError>
    ensures { IfOk result (λ s. string_bytes s ≡ pair_text y budget period level) }
{
    format!(in alloc;
        "<text class='m s' x='8' y='{y}'>{budget} of {period}, level {level}</text>\n"
    )
}

/// Adds these terms below the row's name, and where windows of its level begin.
#[tactic(auto, unfolding(crate::specs::RowTexts::terms_text))]
fn add_terms(
    alloc: Global,
    text: &mut String,
    header: &Header,
    span: Span,
    top: u64,
    terms: Terms,
) -> Result<(), AllocError>
    requires low { 5 ≤ top }
    requires high { top < 2 ^ 32 }
    ensures { OnOk result (string_bytes text.new ≡ string_bytes text.old ++ terms_text header.now span top terms) }
{
    let Terms {
        budget,
        period,
        level,
    } = terms;
    push_line(text, pair(alloc, top + 21, budget, period, level)?)?;
    add_own_windows(alloc, text, span, top, level, period_of(header, level))
}

fn add_terms_part(
    alloc: Global,
    text: &mut String,
    header: &Header,
    span: Span,
    top: u64,
    terms: Option<Terms>,
) -> Result<(), AllocError>
    requires low { 5 ≤ top }
    requires high { top < 2 ^ 32 }
    ensures { OnOk result (string_bytes text.new ≡ string_bytes text.old ++ terms_part header.now span top terms) }
{
    match terms {
        Some(terms) => add_terms(alloc, text, header, span, top, terms),
        None => Ok(()),
    }
}

/// Adds a number that ends there, where it isn't 0.
fn add_counted(
    alloc: Global,
    text: &mut String,
    class: &str,
    x: u64,
    y: u64,
    number: u64,
) -> Result<(), AllocError>
    ensures { OnOk result (string_bytes text.new ≡ string_bytes text.old ++ counted class.now x y number) }
{
    if number == 0 {
        return Ok(());
    }
    push_line(text, number_at(alloc, class, x, y, number)?)
}

/// Adds the numbers of the row.
#[tactic(auto, unfolding(crate::specs::RowTexts::counts_text))]
fn add_counts(
    alloc: Global,
    text: &mut String,
    y: u64,
    row: Row,
    groups: &[LedgerLine],
) -> Result<(), AllocError>
    requires { length groups.now < 2 ^ 16 }
    ensures { OnOk result (string_bytes text.new ≡ string_bytes text.old ++ counts_text y row groups.now) }
{
    let ticks = column_sum(groups, row, Column::Ticks);
    let slack = column_sum(groups, row, Column::Slack);
    let refused = column_sum(groups, row, Column::Refused);
    let faults = column_sum(groups, row, Column::Faults);
    push_line(text, number_at(alloc, "t x", 1232, y, ticks)?)?;
    add_counted(alloc, text, "t x", 1304, y, slack)?;
    add_counted(alloc, text, "u x", 1376, y, refused)?;
    add_counted(alloc, text, "u x", 1448, y, faults)
}

/// Each second row has a lane of another shade.
fn lane_class(place: u16) -> &'static str
    ensures { result.now ≡ lane_class place }
{
    if place % 2 == 0 { "l" } else { "bg" }
}

/// The row's lane, the line below its bars, and its name.
#[tactic(auto, unfolding(crate::specs::RowTexts::name_line))]
fn name_line(
    alloc: Global,
    lane: &str,
    high: u64,
    low: u64,
    foot: u64,
    name: &str,
) -> Result<String, AllocError>
    ensures { IfOk result (λ s. string_bytes s ≡ name_line lane.now high low foot name.now) }
{
    format!(in alloc;
        "<rect class='{lane}' x='0' y='{high}' width='1456' height='38'/>
<rect class='g' x='200' y='{low}' width='960' height='1'/>
<text class='t' x='8' y='{foot}'>{name}</text>
"
    )
}

fn name_text(
    alloc: Global,
    header: &Header,
    place: u16,
    top: u64,
    row: Row,
) -> Result<String, AllocError>
    requires low { 10 ≤ top }
    requires high { top < 2 ^ 32 }
    ensures { IfOk result (λ s. string_bytes s ≡ name_text header.now place top row) }
{
    let name = row_name(alloc, header, row)?;
    let lane = lane_class(place);
    name_line(alloc, lane, top - 10, top + 12, top + 10, name.as_str())
}

/// The level of the row's process. The kernel has none.
fn row_level(header: &Header, row: Row) -> Option<u8>
    ensures { result ≡ row_level header.now row }
{
    match row {
        Row::Kernel => None,
        Row::Thread(thread) => Some(level_of(header, thread.process)),
        Row::Children(process) => Some(level_of(header, process)),
    }
}

fn is_same_level(one: Option<u8>, other: Option<u8>) -> bool
    ensures { result ≡ is_same_level one other }
{
    match (one, other) {
        (None, None) => true,
        (Some(one), Some(other)) => one == other,
        _ => false,
    }
}

/// A line above the first row of a level, by the row before.
fn level_line(
    alloc: Global,
    header: &Header,
    top: u64,
    before: Option<Row>,
    row: Row,
) -> Result<String, AllocError>
    requires low { 10 ≤ top }
    ensures { IfOk result (λ s. string_bytes s ≡ level_line header.now top before row) }
{
    let Some(before) = before else {
        return Ok(String::new(alloc));
    };
    if is_same_level(row_level(header, before), row_level(header, row)) {
        return Ok(String::new(alloc));
    }
    let place = Place {
        x: 0,
        y: top - 10,
        width: 1456,
        height: 1,
    };
    rect(alloc, "w", place)
}

/// Adds a row.
#[tactic(auto, unfolding(crate::specs::RowTexts::row_text))]
fn add_row(
    alloc: Global,
    text: &mut String,
    header: &Header,
    span: Span,
    drawing: &Drawing,
    place: u16,
    top: u64,
    row: Row,
) -> Result<(), AllocError>
    requires low { 10 ≤ top }
    requires high { top < 2 ^ 32 }
    ensures { OnOk result (string_bytes text.new
        ≡ string_bytes text.old ++ row_text header.now span drawing.now place top row) }
{
    push_line(text, name_text(alloc, header, place, top, row)?)?;
    let before = drawing.rows().get(place.saturating_sub(1));
    push_line(text, level_line(alloc, header, top, before, row)?)?;
    let terms = terms_of(header, drawing.makings(), row);
    add_terms_part(alloc, text, header, span, top, terms)?;
    add_counts(alloc, text, top + 10, row, drawing.groups())
}

/// Adds the rows.
pub(crate) fn add_rows(
    alloc: Global,
    text: &mut String,
    header: &Header,
    frame: Frame,
    span: Span,
    drawing: &Drawing,
    rows: &[Row],
) -> Result<(), AllocError>
    requires { length rows.now < 2 ^ 16 }
    ensures { OnOk result (string_bytes text.new
        ≡ string_bytes text.old ++ rows_text header.now frame span drawing.now 0 rows.now) }
{
    for (place, row) in rows.iter().enumerate() {
        let top = frame.top(place as u16);
        add_row(alloc, text, header, span, drawing, place as u16, top, *row)?;
    }
    Ok(())
}

/// The heads of the columns.
#[tactic(auto, unfolding(crate::specs::RowTexts::rows_head))]
pub(crate) fn rows_head(alloc: Global, y: u64) -> Result<String, AllocError>
    ensures { IfOk result (λ s. string_bytes s ≡ rows_head y) }
{
    format!(in alloc;
        "<text class='m' x='8' y='{y}'>threads, budget of period, level</text>
<text class='m x' x='1232' y='{y}'>ticks</text>
<text class='m x' x='1304' y='{y}'>slack</text>
<text class='m x' x='1376' y='{y}'>refused</text>
<text class='m x' x='1448' y='{y}'>faults</text>
"
    )
}
