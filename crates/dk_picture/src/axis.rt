//! The axis of ticks.
ghost use Rattle.std.specs.Prelude.{◌≡◌, ◌<◌, ◌++◌, IfOk, OnOk, find, string_bytes};
ghost use Rattle.dk_picture.specs.Axis.{axis_head, axis_text, first_drawn, is_wide, mark_line, step_of, tick_text, ticks_drawn, ticks_text};

use crate::elements::push_line;
use crate::frame::Frame;
use crate::span::{Span, room_for};
use std::alloc::{AllocError, Global};

/// The steps between numbers, of which the first with room for the greatest number is taken.
pub(crate) const STEPS: [u32; 22] = [
    1, 2, 5, 10, 20, 50, 100, 200, 500, 1_000, 2_000, 5_000, 10_000, 20_000, 50_000, 100_000,
    200_000, 500_000, 1_000_000, 2_000_000, 5_000_000, 10_000_000,
];

/// Whether so many ticks have room for the greatest number.
fn is_wide(span: Span, step: u32) -> bool
    ensures { result ≡ is_wide span step }
{
    span.has_pixels(step as u64, room_for(span.to as u64) + 8)
}

/// The first of the steps that is wide.
fn first_wide(span: Span, steps: &[u32]) -> Option<u32>
    ensures { result ≡ find (is_wide span) steps.now }
{
    for step in steps {
        if is_wide(span, *step) {
            return Some(*step);
        }
    }
    None
}

/// The ticks from one number to the next.
fn step_of(span: Span) -> u32
    ensures value { result ≡ step_of span }
    ensures some { 0 < result }
{
    match first_wide(span, &STEPS) {
        Some(step) => step.max(1),
        None => 10_000_000,
    }
}

/// A tick with its number.
#[tactic(auto, unfolding(crate::specs::Axis::mark_line))]
fn mark_line(alloc: Global, x: u64, y: u64, foot: u64, tick: u64) -> Result<String, AllocError>
    ensures { IfOk result (λ s. string_bytes s ≡ mark_line x y foot tick) }
{
    format!(in alloc;
        "<rect class='w' x='{x}' y='{y}' width='1' height='4'/>
<text class='m c' x='{x}' y='{foot}'>{tick}</text>
"
    )
}

fn tick_text(alloc: Global, span: Span, frame: Frame, tick: u64) -> Result<String, AllocError>
    ensures { IfOk result (λ s. string_bytes s ≡ tick_text span frame tick) }
{
    let y = frame.bottom();
    mark_line(alloc, span.place(tick), y, y + 16, tick)
}

/// The first multiple of the step from FROM on, in steps.
fn first_drawn(span: Span, step: u32) -> u64
    requires { 0 < step }
    ensures { result ≡ first_drawn span step }
{
    (span.from as u64 + (step as u64 - 1)) / step as u64
}

/// How many multiples stand from FROM to TO.
fn ticks_drawn(span: Span, step: u32) -> u64
    requires { 0 < step }
    ensures { result ≡ ticks_drawn span step }
{
    let last = span.to as u64 / step as u64;
    (last + 1).saturating_sub(first_drawn(span, step))
}

/// Adds the numbers.
fn add_ticks(
    alloc: Global,
    text: &mut String,
    span: Span,
    frame: Frame,
    step: u32,
) -> Result<(), AllocError>
    requires { 0 < step }
    ensures { OnOk result (string_bytes text.new ≡ string_bytes text.old ++ ticks_text span frame step) }
{
    let first = first_drawn(span, step);
    for number in 0..ticks_drawn(span, step) {
        let tick = (first + number) * step as u64;
        let line = tick_text(alloc, span, frame, tick)?;
        push_line(text, line)?;
    }
    Ok(())
}

/// The line and its name.
#[tactic(auto, unfolding(crate::specs::Axis::axis_head))]
fn axis_head(alloc: Global, y: u64, foot: u64) -> Result<String, AllocError>
    ensures { IfOk result (λ s. string_bytes s ≡ axis_head y foot) }
{
    format!(in alloc;
        "<rect class='w' x='200' y='{y}' width='960' height='1'/>
<text class='m' x='8' y='{foot}'>tick</text>
"
    )
}

/// Adds the axis.
#[tactic(auto, unfolding(crate::specs::Axis::axis_text))]
pub(crate) fn add_axis(
    alloc: Global,
    text: &mut String,
    span: Span,
    frame: Frame,
) -> Result<(), AllocError>
    ensures { OnOk result (string_bytes text.new ≡ string_bytes text.old ++ axis_text span frame) }
{
    let y = frame.bottom();
    push_line(text, axis_head(alloc, y, y + 16)?)?;
    add_ticks(alloc, text, span, frame, step_of(span))
}
