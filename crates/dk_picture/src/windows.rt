//! The windows of each level, as a ruler above the rows and as lines across the bars of rows.
ghost use Rattle.std.specs.Prelude.{◌≡◌, ◌≤◌, ◌<◌, ◌+◌, ◌/◌, ◌^◌, ◌++◌, All, IfOk, OnOk, string_bytes};
ghost use Rattle.dk_picture.specs.Windows.{begin_line, begin_lines, begin_text, number_text, own_windows, stripe, window_at, window_count, window_rect, window_text, window_title, window_width, windows_in, windows_text};

use crate::elements::{Place, number_at, push_line, rect, titled_rect};
use crate::frame::level_top;
use crate::span::{Span, room_for};
use std::alloc::{AllocError, Global};

/// A window of a level, from tick `first` up to before tick `end`.
#[derive(Clone, Copy)]
pub(crate) struct Window {
    pub(crate) level: u8,
    pub(crate) number: u64,
    pub(crate) first: u64,
    pub(crate) end: u64,
}

/// Neighbours have two shades.
fn stripe(number: u64) -> &'static str
    ensures { result.now ≡ stripe number }
{
    if number % 2 == 0 { "z" } else { "y" }
}

fn window_title(alloc: Global, window: Window) -> Result<String, AllocError>
    ensures { IfOk result (λ s. string_bytes s ≡ window_title window) }
{
    let Window {
        level,
        number,
        first,
        end,
    } = window;
    format!(in alloc; "window {number} of level {level}: {first} to {end}")
}

/// The part of the window in the range, in the ruler.
fn window_rect(alloc: Global, span: Span, window: Window) -> Result<String, AllocError>
    ensures { IfOk result (λ s. string_bytes s ≡ window_rect span window) }
{
    let place = Place {
        x: span.place(window.first),
        y: level_top(window.level),
        width: window_width(span, window),
        height: 13,
    };
    let title = window_title(alloc, window)?;
    titled_rect(alloc, stripe(window.number), place, title.as_str())
}

/// How wide the part of the window in the range is.
fn window_width(span: Span, window: Window) -> u64
    ensures { result ≡ window_width span window }
{
    span.place(window.end)
        .saturating_sub(span.place(window.first))
}

/// The window's first tick as a number, where it has room.
fn number_text(alloc: Global, span: Span, window: Window) -> Result<String, AllocError>
    ensures { IfOk result (λ s. string_bytes s ≡ number_text span window) }
{
    let left = span.place(window.first);
    if room_for(window.first) <= window_width(span, window) {
        number_at(
            alloc,
            "m",
            left + 3,
            level_top(window.level) + 10,
            window.first,
        )
    } else {
        Ok(String::new(alloc))
    }
}

/// What is drawn where a window begins in the range.
fn begin_text(alloc: Global, span: Span, window: Window) -> Result<String, AllocError>
    ensures { IfOk result (λ s. string_bytes s ≡ begin_text span window) }
{
    if window.first < span.from as u64 {
        Ok(String::new(alloc))
    } else {
        number_text(alloc, span, window)
    }
}

#[tactic(auto, unfolding(crate::specs::Windows::window_text))]
fn window_text(alloc: Global, span: Span, window: Window) -> Result<String, AllocError>
    ensures { IfOk result (λ s. string_bytes s ≡ window_text span window) }
{
    let mut text = window_rect(alloc, span, window)?;
    push_line(&mut text, begin_text(alloc, span, window)?)?;
    Ok(text)
}

/// A window by its number.
fn window_at(level: u8, period: u32, number: u32) -> Window
    ensures value { result ≡ window_at level period number }
    ensures small { result.first + 2 ^ 32 ≤ 2 ^ 64 }
{
    let first = number as u64 * period as u64;
    Window {
        level,
        number: number as u64,
        first,
        end: first + period as u64,
    }
}

/// The windows of the level that have a tick in the range.
pub(crate) fn windows_in(
    alloc: Global,
    span: Span,
    level: u8,
    period: u32,
) -> Result<Vec<Window>, AllocError>
    requires { 0 < period }
    ensures windows { IfOk result (λ v. v.items ≡ windows_in span level period) }
    ensures small { IfOk result (λ v. All (λ w. w.first + 2 ^ 32 ≤ 2 ^ 64) v.items) }
{
    let first = span.from / period;
    let mut windows = Vec::new(alloc);
    for number in 0..window_count(span, period) {
        windows.push(window_at(level, period, first + number))?;
    }
    Ok(windows)
}

/// Adds the windows of the level that have a tick in the range.
pub(crate) fn add_windows(
    alloc: Global,
    text: &mut String,
    span: Span,
    level: u8,
    period: u32,
) -> Result<(), AllocError>
    requires { 0 < period }
    ensures { OnOk result (string_bytes text.new ≡ string_bytes text.old ++ windows_text span level period) }
{
    let windows = windows_in(alloc, span, level, period)?;
    for window in windows.as_slice() {
        let line = window_text(alloc, span, *window)?;
        push_line(text, line)?;
    }
    Ok(())
}

/// A line across a row's bars where the window begins in the range.
fn begin_line(alloc: Global, span: Span, top: u64, window: Window) -> Result<String, AllocError>
    requires { 5 ≤ top }
    ensures { IfOk result (λ s. string_bytes s ≡ begin_line span top window) }
{
    if window.first < span.from as u64 {
        return Ok(String::new(alloc));
    }
    let place = Place {
        x: span.place(window.first),
        y: top - 5,
        width: 1,
        height: 23,
    };
    rect(alloc, "w", place)
}

fn add_begin_lines(
    alloc: Global,
    text: &mut String,
    span: Span,
    top: u64,
    level: u8,
    period: u32,
) -> Result<(), AllocError>
    requires some { 0 < period }
    requires top { 5 ≤ top }
    ensures { OnOk result (string_bytes text.new ≡ string_bytes text.old ++ begin_lines span top level period) }
{
    let windows = windows_in(alloc, span, level, period)?;
    for window in windows.as_slice() {
        let line = begin_line(alloc, span, top, *window)?;
        push_line(text, line)?;
    }
    Ok(())
}

/// Adds the lines at which windows of the level begin, where one has 12 pixels.
pub(crate) fn add_own_windows(
    alloc: Global,
    text: &mut String,
    span: Span,
    top: u64,
    level: u8,
    period: u32,
) -> Result<(), AllocError>
    requires { 5 ≤ top }
    ensures { OnOk result (string_bytes text.new ≡ string_bytes text.old ++ own_windows span top level period) }
{
    if period > 0 && span.has_pixels(period as u64, 12) {
        add_begin_lines(alloc, text, span, top, level, period)
    } else {
        Ok(())
    }
}

/// How many windows have a tick in the range.
fn window_count(span: Span, period: u32) -> u32
    requires { 0 < period }
    ensures value { result ≡ window_count span period }
    ensures few { result + span.from / period < 2 ^ 32 }
{
    let past = span.to.saturating_sub(1) / period + 1;
    past.saturating_sub(span.from / period)
}
