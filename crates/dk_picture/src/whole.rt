//! The whole picture.
ghost use Rattle.std.specs.Prelude.{ℕ, ◌≡◌, ◌≤◌, ◌<◌, ◌^◌, ◌++◌, IfErr, IfOk, IsErrOf, OnOk, length, string_bytes};
ghost use Rattle.dk_ledger.specs.Readable.{Journal};
ghost use Rattle.dk_groups.specs.Groups.{groups};
ghost use Rattle.dk_hold_spans.specs.HoldLists.{holds_in};
ghost use Rattle.dk_picture.specs.Makings.{makings_in};
ghost use Rattle.dk_picture.specs.Numbers.{max_groups};
ghost use Rattle.dk_picture.specs.Windows.{windows_head};
ghost use Rattle.dk_picture.specs.Pictures.{IsShown, IsTooMany, body_text, drawn_text, foot_text, legend_head, legend_text, names_text, parts_text, picture_text, promised_svg, svg_text};

use crate::axis::add_axis;
use crate::bars::add_plot;
use crate::drawing::Drawing;
use crate::elements::{push_line, push_words};
use crate::frame::Frame;
use crate::labels::add_labels;
use crate::levels::add_levels;
use crate::makings::read_makings;
use crate::marks::add_marks;
use crate::mutex_texts::add_mutexes;
use crate::opening::add_opening;
use crate::promise::Promise;
use crate::promise_marks::key;
use crate::quiet_texts::add_quiet;
use crate::reading::{PictureFault, read_groups};
use crate::row_texts::{add_rows, rows_head};
use crate::share_texts::add_shares;
use crate::span::Span;
use crate::style::{LEGEND, WINDOWS_HEAD};
use dk_config::NoMemory;
use dk_groups::GroupReader;
use dk_hold_spans::read_holds;
use dk_ledger::{Header, LedgerLine};
use std::alloc::{AllocError, Global};

/// The place of the legend, below the axis.
#[tactic(auto, unfolding(crate::specs::Pictures::legend_head))]
fn legend_head(alloc: Global, y: u64) -> Result<String, AllocError>
    ensures { IfOk result (λ s. string_bytes s ≡ legend_head y) }
{
    format!(in alloc; "<g transform='translate(0 {y})'>\n")
}

/// The legend, with what more it has to name, and the end.
#[tactic(auto, unfolding(crate::specs::Pictures::legend_text))]
fn legend_text(alloc: Global, y: u64, key: &str) -> Result<String, AllocError>
    ensures { IfOk result (λ s. string_bytes s ≡ legend_text y key.now) }
{
    let mut text = legend_head(alloc, y)?;
    push_words(&mut text, key)?;
    push_words(&mut text, LEGEND)?;
    Ok(text)
}

/// Adds the axis, the legend and the end.
#[tactic(auto, unfolding(crate::specs::Pictures::foot_text))]
fn add_foot(
    alloc: Global,
    text: &mut String,
    span: Span,
    frame: Frame,
    drawing: &Drawing,
) -> Result<(), AllocError>
    ensures { OnOk result (string_bytes text.new ≡ string_bytes text.old ++ foot_text span frame drawing.now) }
{
    add_axis(alloc, text, span, frame)?;
    push_line(text, legend_text(alloc, frame.bottom(), key(drawing))?)
}

/// Adds the rows with their names and numbers, the mains without a tick, and the rows of the mutexes.
#[tactic(auto, unfolding(crate::specs::Pictures::names_text))]
fn add_names(
    alloc: Global,
    text: &mut String,
    header: &Header,
    frame: Frame,
    span: Span,
    drawing: &Drawing,
) -> Result<(), AllocError>
    ensures { OnOk result (string_bytes text.new
        ≡ string_bytes text.old ++ names_text header.now frame span drawing.now) }
{
    push_line(text, rows_head(alloc, frame.head() + 8)?)?;
    let rows = drawing.rows().as_slice();
    add_rows(alloc, text, header, frame, span, drawing, rows)?;
    add_quiet(alloc, text, header, frame, drawing.quiet())?;
    let names = drawing.promise().names();
    add_mutexes(
        alloc,
        text,
        names,
        drawing.holds(),
        frame,
        drawing.mutexes(),
    )
}

/// Adds the bars, the words at them, what each main used in its windows, and the marks.
#[tactic(auto, unfolding(crate::specs::Pictures::drawn_text))]
fn add_drawn(
    alloc: Global,
    text: &mut String,
    header: &Header,
    frame: Frame,
    span: Span,
    drawing: &Drawing,
) -> Result<(), AllocError>
    requires { length header.now.processes ≤ 32 }
    ensures { OnOk result (string_bytes text.new
        ≡ string_bytes text.old ++ drawn_text header.now frame span drawing.now) }
{
    add_plot(alloc, text, header, frame, span, drawing)?;
    add_labels(alloc, text, header, frame, span, drawing)?;
    add_shares(alloc, text, header, frame, span, drawing)?;
    add_marks(alloc, text, header, frame, span, drawing)
}

/// Adds the heads of the columns of the levels.
fn add_head(text: &mut String) -> Result<(), AllocError>
    ensures { OnOk result (string_bytes text.new ≡ string_bytes text.old ++ windows_head) }
{
    push_words(text, WINDOWS_HEAD)
}

/// Adds the windows, the rows, their bars and the marks.
#[tactic(auto, unfolding(crate::specs::Pictures::body_text))]
fn add_body(
    alloc: Global,
    text: &mut String,
    header: &Header,
    frame: Frame,
    span: Span,
    drawing: &Drawing,
) -> Result<(), AllocError>
    requires levels { length header.now.levels ≤ 12 }
    requires processes { length header.now.processes ≤ 32 }
    ensures { OnOk result (string_bytes text.new
        ≡ string_bytes text.old ++ body_text header.now frame span drawing.now) }
{
    add_head(text)?;
    add_levels(alloc, text, span, header.levels.as_slice())?;
    add_names(alloc, text, header, frame, span, drawing)?;
    add_drawn(alloc, text, header, frame, span, drawing)
}

/// The picture of what is drawn.
fn framed(
    alloc: Global,
    header: &Header,
    frame: Frame,
    span: Span,
    ticks: u32,
    drawing: &Drawing,
) -> Result<String, NoMemory>
    requires levels { length header.now.levels ≤ 12 }
    requires processes { length header.now.processes ≤ 32 }
    ensures { IfOk result (λ s. string_bytes s ≡ parts_text header.now frame span ticks drawing.now) }
{
    let mut text = String::new(alloc);
    add_opening(
        alloc,
        &mut text,
        header,
        frame,
        span,
        ticks,
        drawing.groups(),
    )?;
    add_body(alloc, &mut text, header, frame, span, drawing)?;
    add_foot(alloc, &mut text, span, frame, drawing)?;
    Ok(text)
}

/// The picture of the groups, and of the holds in their range of the ledger in these bytes, with what is promised.
fn drawn(
    alloc: Global,
    header: &Header,
    bytes: &[u8],
    span: Span,
    ticks: u32,
    groups: Vec<LedgerLine>,
    promise: Promise,
) -> Result<String, NoMemory>
    requires ledger { (j : Journal) × IsShown j header.now bytes.now ticks }
    requires levels { length header.now.levels ≤ 12 }
    requires processes { length header.now.processes ≤ 32 }
    requires few { length groups.items < 2 ^ 16 }
    ensures { IfOk result (λ s. (j : Journal) → IsShown j header.now bytes.now ticks → string_bytes s
        ≡ picture_text header.now promise span ticks groups.items (holds_in span.from span.to j.entries)
        (makings_in span.to j.entries)) }
{
    let holds = read_holds(alloc, bytes, span.from, span.to)?;
    let makings = read_makings(alloc, bytes, span.to)?;
    let drawing = Drawing::of(alloc, header, groups, holds, makings, promise)?;
    framed(alloc, header, drawing.frame(header), span, ticks, &drawing)
}

/// The same, where memory is there.
fn of_groups(
    alloc: Global,
    header: &Header,
    bytes: &[u8],
    span: Span,
    ticks: u32,
    groups: Vec<LedgerLine>,
    promise: Promise,
) -> Result<String, PictureFault>
    requires ledger { (j : Journal) × IsShown j header.now bytes.now ticks }
    requires levels { length header.now.levels ≤ 12 }
    requires processes { length header.now.processes ≤ 32 }
    requires few { length groups.items < 2 ^ 16 }
    ensures drawn { IfOk result (λ s. (j : Journal) → IsShown j header.now bytes.now ticks → string_bytes s
        ≡ picture_text header.now promise span ticks groups.items (holds_in span.from span.to j.entries)
        (makings_in span.to j.entries)) }
    ensures memory { IfErr result (λ e. e ≡ PictureFault.NoMemory) }
{
    Ok(drawn(alloc, header, bytes, span, ticks, groups, promise)?)
}

/// The picture of the ledger in these bytes, which has this header and so many ticks, from tick `from` up to before tick
/// `to`, with what a configuration promises. All memory is taken here.
pub fn promised_picture(
    alloc: Global,
    header: &Header,
    bytes: &[u8],
    ticks: u32,
    from: u32,
    to: u32,
    promise: Promise,
) -> Result<String, PictureFault>
    requires { (j : Journal) × IsShown j header.now bytes.now ticks }
    ensures drawn { IfOk result (λ text. (j : Journal) → IsShown j header.now bytes.now ticks
        → (string_bytes text ≡ promised_svg promise from to j.heading j.entries)
        × (length (groups from to j.entries) ≤ max_groups)) }
    ensures too_many { (t : ℕ) → IsErrOf result (PictureFault.TooMany t) → (j : Journal)
        → IsShown j header.now bytes.now ticks → IsTooMany (groups from to j.entries) t }
{
    let mut reader = GroupReader::new(alloc, bytes, from, to);
    match read_groups(alloc, &mut reader) {
        Ok(groups) => {
            of_groups(
                alloc,
                header,
                bytes,
                Span { from, to },
                ticks,
                groups,
                promise,
            )
        }
        Err(fault) => Err(fault),
    }
}

/// The same without a configuration.
pub fn picture(
    alloc: Global,
    header: &Header,
    bytes: &[u8],
    ticks: u32,
    from: u32,
    to: u32,
) -> Result<String, PictureFault>
    requires { (j : Journal) × IsShown j header.now bytes.now ticks }
    ensures drawn { IfOk result (λ text. (j : Journal) → IsShown j header.now bytes.now ticks
        → (string_bytes text ≡ svg_text from to j.heading j.entries)
        × (length (groups from to j.entries) ≤ max_groups)) }
    ensures too_many { (t : ℕ) → IsErrOf result (PictureFault.TooMany t) → (j : Journal)
        → IsShown j header.now bytes.now ticks → IsTooMany (groups from to j.entries) t }
{
    promised_picture(alloc, header, bytes, ticks, from, to, Promise::none(alloc))
}
