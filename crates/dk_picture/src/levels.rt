//! The table of the levels with the rulers of their windows.
ghost use Rattle.std.specs.Prelude.{◌≡◌, ◌≤◌, ◌++◌, IfOk, OnOk, length, string_bytes};
ghost use Rattle.dk_picture.specs.Windows.{level_name, level_numbers, level_text, levels_text, ruler_text};

use crate::elements::{Place, number_at, push_line, rect};
use crate::frame::level_top;
use crate::span::{LEFT, PLOT, Span};
use crate::windows::add_windows;
use dk_certify::TableRow;
use std::alloc::{AllocError, Global};

/// Adds the ruler of a level, which is plain where a window has fewer than 6 pixels.
fn add_ruler(
    alloc: Global,
    text: &mut String,
    span: Span,
    level: u8,
    period: u32,
) -> Result<(), AllocError>
    ensures { OnOk result (string_bytes text.new ≡ string_bytes text.old ++ ruler_text span level period) }
{
    if period > 0 && span.has_pixels(period as u64, 6) {
        return add_windows(alloc, text, span, level, period);
    }
    let place = Place {
        x: LEFT,
        y: level_top(level),
        width: PLOT,
        height: 13,
    };
    push_line(text, rect(alloc, "z", place)?)
}

/// The level and its period.
#[tactic(auto, unfolding(crate::specs::Windows::level_name))]
fn level_name(alloc: Global, y: u64, level: u8, period: u32) -> Result<String, AllocError>
    ensures { IfOk result (λ s. string_bytes s ≡ level_name y level period) }
{
    format!(in alloc;
        "<text class='t' x='8' y='{y}'>level {level}</text>
<text class='m x' x='192' y='{y}'>{period}</text>
"
    )
}

/// The numbers beside its ruler.
#[tactic(auto, unfolding(crate::specs::Windows::level_numbers))]
fn level_numbers(alloc: Global, y: u64, demand: u32, blocking: u32) -> Result<String, AllocError>
    ensures { IfOk result (λ s. string_bytes s ≡ level_numbers y demand blocking) }
{
    format!(in alloc;
        "<text class='m x' x='1232' y='{y}'>{demand}</text>
<text class='m x' x='1304' y='{y}'>{blocking}</text>
"
    )
}

/// Adds a level.
#[tactic(auto, unfolding(crate::specs::Windows::level_text))]
fn add_level(
    alloc: Global,
    text: &mut String,
    span: Span,
    level: u8,
    row: &TableRow,
) -> Result<(), AllocError>
    ensures { OnOk result (string_bytes text.new ≡ string_bytes text.old ++ level_text span level row.now) }
{
    let y = level_top(level) + 10;
    let TableRow {
        period,
        demand,
        blocking,
        spare,
    } = *row;
    push_line(text, level_name(alloc, y, level, period)?)?;
    push_line(text, level_numbers(alloc, y, demand, blocking)?)?;
    push_line(text, number_at(alloc, "m x", 1376, y, spare as u64)?)?;
    add_ruler(alloc, text, span, level, period)
}

/// Adds the levels.
pub(crate) fn add_levels(
    alloc: Global,
    text: &mut String,
    span: Span,
    rows: &[TableRow],
) -> Result<(), AllocError>
    requires { length rows.now ≤ 12 }
    ensures { OnOk result (string_bytes text.new ≡ string_bytes text.old ++ levels_text span 0 rows.now) }
{
    for (level, row) in rows.iter().enumerate() {
        add_level(alloc, text, span, level as u8, row)?;
    }
    Ok(())
}
