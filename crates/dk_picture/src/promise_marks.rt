//! The marks of what a configuration promises of a main's window.
ghost use Rattle.std.specs.Prelude.{◌≡◌, ◌≤◌, ◌+◌, ◌^◌, ◌++◌, IfOk, slice_get, string_bytes};
ghost use Rattle.dk_picture.specs.PromiseMarks.{begins_mark, begins_words, bound_marks, done_mark, done_words, key_text, promise_mark, promise_marks, promise_title};

use crate::drawing::Drawing;
use crate::elements::push_line;
use crate::frame::Frame;
use crate::lines::thread_words;
use crate::marks::{mark_line, titled};
use crate::promise::Bound;
use crate::shares::{Share, main_of};
use crate::span::Span;
use dk_ledger::Header;
use std::alloc::{AllocError, Global};

/// What the marks stand for.
const KEY: &str = "<path class='e' d='M1104 29l5 3l-5 3z'/><text x='1114' y='36'>begins by</text>
<path class='e' d='M1209 29l-5 3l5 3z'/><text x='1214' y='36'>done by, in every run</text>
";

fn begins_words(alloc: Global, ticks: u32) -> Result<String, AllocError>
    ensures { IfOk result (λ s. string_bytes s ≡ begins_words ticks) }
{
    format!(in alloc; "begins by {ticks}")
}

fn done_words(alloc: Global, ticks: u32) -> Result<String, AllocError>
    ensures { IfOk result (λ s. string_bytes s ≡ done_words ticks) }
{
    format!(in alloc; "done by {ticks}")
}

/// A mark where the tick begins.
fn promise_mark(
    alloc: Global,
    frame: Frame,
    span: Span,
    share: Share,
    tick: u64,
    outline: &str,
    title: &str,
) -> Result<String, AllocError>
    ensures { IfOk result (λ s. string_bytes s ≡ promise_mark frame span share tick outline.now title.now) }
{
    let y = frame.top(share.row) + 14;
    mark_line(alloc, "e", span.place(tick), y, outline, title)
}

fn promise_title(
    alloc: Global,
    header: &Header,
    share: Share,
    tick: u64,
    words: &str,
) -> Result<String, AllocError>
    ensures { IfOk result (λ s. string_bytes s ≡ promise_title header.now share tick words.now) }
{
    let main = thread_words(alloc, header, main_of(share.process))?;
    titled(alloc, tick, main.as_str(), words)
}

/// By when the main begins in the window.
fn begins_mark(
    alloc: Global,
    header: &Header,
    frame: Frame,
    span: Span,
    share: Share,
    bound: Bound,
) -> Result<String, AllocError>
    requires { share.first + 2 ^ 32 ≤ 2 ^ 64 }
    ensures { IfOk result (λ s. string_bytes s ≡ begins_mark header.now frame span share bound) }
{
    let words = begins_words(alloc, bound.begins)?;
    let tick = share.first + bound.begins as u64;
    let title = promise_title(alloc, header, share, tick, words.as_str())?;
    promise_mark(
        alloc,
        frame,
        span,
        share,
        tick,
        "l5 3l-5 3z",
        title.as_str(),
    )
}

/// By when it is done.
fn done_mark(
    alloc: Global,
    header: &Header,
    frame: Frame,
    span: Span,
    share: Share,
    bound: Bound,
) -> Result<String, AllocError>
    requires { share.first + 2 ^ 32 ≤ 2 ^ 64 }
    ensures { IfOk result (λ s. string_bytes s ≡ done_mark header.now frame span share bound) }
{
    let words = done_words(alloc, bound.done)?;
    let tick = share.first + bound.done as u64;
    let title = promise_title(alloc, header, share, tick, words.as_str())?;
    promise_mark(
        alloc,
        frame,
        span,
        share,
        tick,
        "l-5 3l5 3z",
        title.as_str(),
    )
}

fn bound_marks(
    alloc: Global,
    header: &Header,
    frame: Frame,
    span: Span,
    share: Share,
    bound: Bound,
) -> Result<String, AllocError>
    requires { share.first + 2 ^ 32 ≤ 2 ^ 64 }
    ensures { IfOk result (λ s. string_bytes s ≡ bound_marks header.now frame span share bound) }
{
    let mut text = begins_mark(alloc, header, frame, span, share, bound)?;
    push_line(
        &mut text,
        done_mark(alloc, header, frame, span, share, bound)?,
    )?;
    Ok(text)
}

/// The marks of the main's window, where a configuration promises something of it.
pub(crate) fn promise_marks(
    alloc: Global,
    header: &Header,
    frame: Frame,
    span: Span,
    drawing: &Drawing,
    share: Share,
) -> Result<String, AllocError>
    requires { share.first + 2 ^ 32 ≤ 2 ^ 64 }
    ensures { IfOk result (λ s. string_bytes s ≡ promise_marks header.now frame span drawing.now share) }
{
    match drawing.promise().bounds().get(share.process as usize) {
        Some(bound) => bound_marks(alloc, header, frame, span, share, *bound),
        None => Ok(String::new(alloc)),
    }
}

/// What the marks stand for, where there are such.
pub(crate) fn key(drawing: &Drawing) -> &'static str
    ensures { result.now ≡ key_text drawing.now }
{
    if drawing.promise().bounds().len() == 0 {
        ""
    } else {
        KEY
    }
}
