//! The words that tell what each main used of its budget, in each of its windows that lies in the range.
ghost use Rattle.std.specs.Prelude.{◌≡◌, ◌≤◌, ◌+◌, ◌^◌, ◌++◌, All, IfOk, OnOk, flat_map, length, string_bytes};
ghost use Rattle.dk_picture.specs.Shares.{done_line, share_class, share_line, share_of, share_text, share_words, shares, shares_of_process, shares_text};

use crate::drawing::Drawing;
use crate::elements::{Place, push_line, rect, words_at};
use crate::frame::Frame;
use crate::labels::room_in;
use crate::promise_marks::promise_marks;
use crate::row_list::{is_seen, level_of};
use crate::shares::{Share, is_whole, share_in};
use crate::span::Span;
use crate::terms::period_of;
use crate::waits::add_waits;
use crate::windows::{Window, windows_in};
use dk_ledger::Header;
use std::alloc::{AllocError, Global};

/// The pixels that a window has at least where what was used in it is told.
const LEAST_PIXELS: u64 = 26;

/// Of the ticks used, those of the budget where children have no part of it.
fn share_words(alloc: Global, share: Share) -> Result<String, AllocError>
    ensures { IfOk result (λ s. string_bytes s ≡ share_words share) }
{
    let Share { used, budget, .. } = share;
    if share.shared {
        format!(in alloc; "{used}/?")
    } else {
        format!(in alloc; "{used}/{budget}")
    }
}

/// That of a window that was overrun is urgent.
fn share_class(share: Share) -> &'static str
    ensures { result.now ≡ share_class share }
{
    if share.overran { "u s x" } else { "m s x" }
}

/// The words below the window's end.
fn share_line(
    alloc: Global,
    frame: Frame,
    span: Span,
    share: Share,
    words: &str,
) -> Result<String, AllocError>
    ensures { IfOk result (λ s. string_bytes s ≡ share_line frame span share words.now) }
{
    if words.len() as u64 > room_in(span, share.first, share.end) {
        return Ok(String::new(alloc));
    }
    let x = span.place(share.end) - 3;
    words_at(
        alloc,
        share_class(share),
        x,
        frame.top(share.row) + 27,
        words,
    )
}

/// A line below the bars, from the window's begin on, until the main is done.
fn done_line(alloc: Global, frame: Frame, span: Span, share: Share) -> Result<String, AllocError>
    ensures { IfOk result (λ s. string_bytes s ≡ done_line frame span share) }
{
    if share.used == 0 {
        return Ok(String::new(alloc));
    }
    let x = span.place(share.first);
    let place = Place {
        x,
        y: frame.top(share.row) + 12,
        width: span.place(share.done).saturating_sub(x),
        height: 1,
    };
    rect(alloc, "e", place)
}

/// The line of the window, where others' holds kept the main waiting, what it used, and what is promised of it.
#[tactic(auto, unfolding(crate::specs::Shares::share_text))]
fn share_text(
    alloc: Global,
    header: &Header,
    frame: Frame,
    span: Span,
    drawing: &Drawing,
    share: Share,
) -> Result<String, AllocError>
    requires { share.first + 2 ^ 32 ≤ 2 ^ 64 }
    ensures { IfOk result (λ s. string_bytes s ≡ share_text header.now frame span drawing.now share) }
{
    let words = share_words(alloc, share)?;
    let mut text = done_line(alloc, frame, span, share)?;
    add_waits(alloc, &mut text, header, frame, span, drawing, share)?;
    push_line(
        &mut text,
        share_line(alloc, frame, span, share, words.as_str())?,
    )?;
    push_line(
        &mut text,
        promise_marks(alloc, header, frame, span, drawing, share)?,
    )?;
    Ok(text)
}

/// What the main used in the window, where that lies in the range.
fn share_of(
    alloc: Global,
    header: &Header,
    frame: Frame,
    span: Span,
    drawing: &Drawing,
    process: u8,
    window: Window,
) -> Result<String, AllocError>
    requires { window.first + 2 ^ 32 ≤ 2 ^ 64 }
    ensures { IfOk result (λ s. string_bytes s
        ≡ shares_text header.now frame span drawing.now (share_of header.now span drawing.now process window)) }
{
    if is_whole(span, window) {
        let share = share_in(header, drawing, process, window);
        share_text(alloc, header, frame, span, drawing, share)
    } else {
        Ok(String::new(alloc))
    }
}

/// Adds what the main used in these windows.
fn add_used(
    alloc: Global,
    text: &mut String,
    header: &Header,
    frame: Frame,
    span: Span,
    drawing: &Drawing,
    process: u8,
    windows: &[Window],
) -> Result<(), AllocError>
    requires { All (λ w. w.first + 2 ^ 32 ≤ 2 ^ 64) windows.now }
    ensures { OnOk result (string_bytes text.new ≡ string_bytes text.old
        ++ shares_text header.now frame span drawing.now (flat_map (share_of header.now span drawing.now process) windows.now)) }
{
    for window in windows {
        let line = share_of(alloc, header, frame, span, drawing, process, *window)?;
        push_line(text, line)?;
    }
    Ok(())
}

/// Adds them, where its windows are wide enough.
fn add_main(
    alloc: Global,
    text: &mut String,
    header: &Header,
    frame: Frame,
    span: Span,
    drawing: &Drawing,
    process: u8,
) -> Result<(), AllocError>
    ensures { OnOk result (string_bytes text.new ≡ string_bytes text.old
        ++ shares_text header.now frame span drawing.now (shares_of_process header.now span drawing.now process)) }
{
    let level = level_of(header, process);
    let period = period_of(header, level);
    if is_seen(drawing.groups(), process)
        && period > 0
        && span.has_pixels(period as u64, LEAST_PIXELS)
    {
        let windows = windows_in(alloc, span, level, period)?;
        add_used(
            alloc,
            text,
            header,
            frame,
            span,
            drawing,
            process,
            windows.as_slice(),
        )
    } else {
        Ok(())
    }
}

/// Adds what each main used in its windows.
pub(crate) fn add_shares(
    alloc: Global,
    text: &mut String,
    header: &Header,
    frame: Frame,
    span: Span,
    drawing: &Drawing,
) -> Result<(), AllocError>
    requires { length header.now.processes ≤ 32 }
    ensures { OnOk result (string_bytes text.new ≡ string_bytes text.old
        ++ shares_text header.now frame span drawing.now (shares header.now span drawing.now)) }
{
    for process in 0..header.processes.len() as u8 {
        add_main(alloc, text, header, frame, span, drawing, process)?;
    }
    Ok(())
}
