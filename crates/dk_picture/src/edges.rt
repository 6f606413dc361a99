//! The lines that part neighbours.
ghost use Rattle.std.specs.Prelude.{◌≡◌, ◌≤◌, ◌++◌, IfOk, OnOk, flat_map, length, string_bytes};
ghost use Rattle.dk_picture.specs.Labels.{edge_of, edges_text, hold_edge_of};

use crate::bars::{height_of, shift_of};
use crate::columns::is_idle;
use crate::drawing::Drawing;
use crate::elements::{Place, push_line, rect};
use crate::frame::Frame;
use crate::hold_bars::mutex_row;
use crate::rows::Rows;
use crate::span::Span;
use dk_hold_spans::Hold;
use dk_ledger::LedgerLine;
use std::alloc::{AllocError, Global};

/// The line that parts the group's bar from the one before.
fn edge(
    alloc: Global,
    frame: Frame,
    span: Span,
    rows: &Rows,
    group: &LedgerLine,
) -> Result<String, AllocError>
    ensures { IfOk result (λ s. string_bytes s ≡ edge_of frame span rows.now group.now) }
{
    if is_idle(group.label) {
        return Ok(String::new(alloc));
    }
    let place = Place {
        x: span.place(group.start as u64),
        y: frame.top(rows.at(group.label)) + shift_of(group.label),
        width: 1,
        height: height_of(group.label),
    };
    rect(alloc, "bg", place)
}

fn add_each_edge(
    alloc: Global,
    text: &mut String,
    frame: Frame,
    span: Span,
    rows: &Rows,
    groups: &[LedgerLine],
) -> Result<(), AllocError>
    ensures { OnOk result (string_bytes text.new
        ≡ string_bytes text.old ++ flat_map (edge_of frame span rows.now) groups.now) }
{
    for group in groups {
        let line = edge(alloc, frame, span, rows, group)?;
        push_line(text, line)?;
    }
    Ok(())
}

/// The line that parts the hold from the one before.
fn hold_edge(
    alloc: Global,
    frame: Frame,
    span: Span,
    mutexes: &[u8],
    hold: &Hold,
) -> Result<String, AllocError>
    requires { length mutexes.now ≤ 16 }
    ensures { IfOk result (λ s. string_bytes s ≡ hold_edge_of frame span mutexes.now hold.now) }
{
    let place = Place {
        x: span.place(hold.start as u64),
        y: frame.mutex_top(mutex_row(mutexes, hold.mutex)),
        width: 1,
        height: 10,
    };
    rect(alloc, "bg", place)
}

fn add_hold_edges(
    alloc: Global,
    text: &mut String,
    frame: Frame,
    span: Span,
    mutexes: &[u8],
    holds: &[Hold],
) -> Result<(), AllocError>
    requires { length mutexes.now ≤ 16 }
    ensures { OnOk result (string_bytes text.new
        ≡ string_bytes text.old ++ flat_map (hold_edge_of frame span mutexes.now) holds.now) }
{
    for hold in holds {
        let line = hold_edge(alloc, frame, span, mutexes, hold)?;
        push_line(text, line)?;
    }
    Ok(())
}

/// Adds the lines between bars, where a tick has 3 pixels.
pub(crate) fn add_edges(
    alloc: Global,
    text: &mut String,
    frame: Frame,
    span: Span,
    drawing: &Drawing,
) -> Result<(), AllocError>
    ensures { OnOk result (string_bytes text.new ≡ string_bytes text.old
        ++ edges_text frame span drawing.now.rows drawing.now.mutexes drawing.now.groups drawing.now.holds) }
{
    if !span.has_pixels(1, 3) {
        return Ok(());
    }
    add_each_edge(alloc, text, frame, span, drawing.rows(), drawing.groups())?;
    add_hold_edges(alloc, text, frame, span, drawing.mutexes(), drawing.holds())
}
