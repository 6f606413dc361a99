//! Elements of a picture. A class says how one is drawn, lengths are pixels.
ghost use Rattle.std.specs.Prelude.{◌≡◌, ◌++◌, IfOk, OnOk, codes, decimal, string_bytes};
ghost use Rattle.dk_picture.specs.Elements.{rect, rect_head, titled_rect, words_at};

use std::alloc::{AllocError, Global};

/// Adds a piece to a text.
pub(crate) fn push_line(text: &mut String, line: String) -> Result<(), AllocError>
    ensures { OnOk result (string_bytes text.new ≡ string_bytes text.old ++ string_bytes line) }
{
    text.push_str(line.as_str())
}

/// Adds words to a text.
pub(crate) fn push_words(text: &mut String, words: &str) -> Result<(), AllocError>
    ensures { OnOk result (string_bytes text.new ≡ string_bytes text.old ++ words.now) }
{
    text.push_str(words)
}

/// Where a rectangle stands, and how large it is.
#[derive(Clone, Copy)]
pub(crate) struct Place {
    pub(crate) x: u64,
    pub(crate) y: u64,
    pub(crate) width: u64,
    pub(crate) height: u64,
}

/// A rectangle up to its end.
#[tactic(auto, unfolding(crate::specs::Elements::rect_head))]
fn rect_head(alloc: Global, class: &str, place: Place) -> Result<String, AllocError>
    ensures { IfOk result (λ s. string_bytes s ≡ rect_head class.now place) }
{
    let Place {
        x,
        y,
        width,
        height,
    } = place;
    format!(in alloc; "<rect class='{class}' x='{x}' y='{y}' width='{width}' height='{height}'")
}

fn titled(alloc: Global, head: &str, title: &str) -> Result<String, AllocError>
    ensures { IfOk result (λ s. string_bytes s
        ≡ head.now ++ (codes "><title>" ++ (title.now ++ codes "</title></rect>\n"))) }
{
    format!(in alloc; "{head}><title>{title}</title></rect>\n")
}

#[tactic(auto, unfolding(crate::specs::Elements::rect))]
pub(crate) fn rect(alloc: Global, class: &str, place: Place) -> Result<String, AllocError>
    ensures { IfOk result (λ s. string_bytes s ≡ rect class.now place) }
{
    let Place {
        x,
        y,
        width,
        height,
    } = place;
    format!(in alloc; "<rect class='{class}' x='{x}' y='{y}' width='{width}' height='{height}'/>\n")
}

/// A rectangle that tells its title to the pointer.
#[tactic(auto, unfolding(crate::specs::Elements::titled_rect))]
pub(crate) fn titled_rect(
    alloc: Global,
    class: &str,
    place: Place,
    title: &str,
) -> Result<String, AllocError>
    ensures { IfOk result (λ s. string_bytes s ≡ titled_rect class.now place title.now) }
{
    let head = rect_head(alloc, class, place)?;
    titled(alloc, head.as_str(), title)
}

/// Words that begin there, or of class `x` end there.
#[tactic(auto, unfolding(crate::specs::Elements::words_at))]
pub(crate) fn words_at(
    alloc: Global,
    class: &str,
    x: u64,
    y: u64,
    words: &str,
) -> Result<String, AllocError>
    ensures { IfOk result (λ s. string_bytes s ≡ words_at class.now x y words.now) }
{
    format!(in alloc; "<text class='{class}' x='{x}' y='{y}'>{words}</text>\n")
}

/// A number that begins there, or of class `x` ends there.
#[tactic(auto, unfolding(crate::specs::Elements::words_at))]
pub(crate) fn number_at(
    alloc: Global,
    class: &str,
    x: u64,
    y: u64,
    number: u64,
) -> Result<String, AllocError>
    ensures { IfOk result (λ s. string_bytes s ≡ words_at class.now x y (decimal number)) }
{
    format!(in alloc; "<text class='{class}' x='{x}' y='{y}'>{number}</text>\n")
}
