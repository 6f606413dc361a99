//! The rows of mutexes with their names and numbers.
ghost use Rattle.std.specs.Prelude.{◌≡◌, ◌<◌, ◌≤◌, ◌^◌, ◌++◌, IfOk, OnOk, codes, length, slice_get, string_bytes};
ghost use Rattle.dk_picture.specs.HoldBars.{held_ticks, held_weight, mutex_line, mutex_text, mutexes_text, name_part};

use crate::elements::push_line;
use crate::frame::Frame;
use dk_config::Text;
use dk_hold_spans::Hold;
use std::alloc::{AllocError, Global};

/// The hold's ticks, where it is one of the mutex.
fn held_weight(mutex: u8, hold: &Hold) -> u32
    ensures { result ≡ held_weight mutex hold.now }
{
    if hold.mutex == mutex {
        hold.end.saturating_sub(hold.start)
    } else {
        0
    }
}

/// The ticks in which the mutex is held.
fn held_ticks(holds: &[Hold], mutex: u8) -> u64
    requires { length holds.now < 2 ^ 32 }
    ensures { result ≡ held_ticks holds.now mutex }
{
    let mut sum = 0;
    for hold in holds {
        sum += held_weight(mutex, hold) as u64;
    }
    sum
}

/// The line below the row's bars, the mutex, and its ticks.
#[tactic(auto, unfolding(crate::specs::HoldBars::mutex_line))]
fn mutex_line(
    alloc: Global,
    y: u64,
    foot: u64,
    mutex: u8,
    name: &str,
    ticks: u64,
) -> Result<String, AllocError>
    ensures { IfOk result (λ s. string_bytes s ≡ mutex_line y foot mutex name.now ticks) }
{
    format!(in alloc;
        "<rect class='g' x='200' y='{y}' width='960' height='1'/>
<text class='t' x='8' y='{foot}'>mutex {mutex}{name}</text>
<text class='t x' x='1232' y='{foot}'>{ticks}</text>
"
    )
}

fn named(alloc: Global, name: &str) -> Result<String, AllocError>
    ensures { IfOk result (λ s. string_bytes s ≡ codes " " ++ name.now) }
{
    format!(in alloc; " {name}")
}

/// The mutex's name behind a blank, where it is known.
fn name_part(alloc: Global, names: &[Text], mutex: u8) -> Result<String, AllocError>
    ensures { IfOk result (λ s. string_bytes s ≡ name_part (slice_get names.now mutex)) }
{
    match names.get(mutex as usize) {
        Some(name) => named(alloc, name.as_str()),
        None => Ok(String::new(alloc)),
    }
}

fn mutex_text(
    alloc: Global,
    names: &[Text],
    holds: &[Hold],
    top: u64,
    mutex: u8,
) -> Result<String, AllocError>
    requires top { top < 2 ^ 32 }
    requires few { length holds.now < 2 ^ 32 }
    ensures { IfOk result (λ s. string_bytes s ≡ mutex_text names.now holds.now top mutex) }
{
    let name = name_part(alloc, names, mutex)?;
    let ticks = held_ticks(holds, mutex);
    mutex_line(alloc, top + 10, top + 9, mutex, name.as_str(), ticks)
}

/// Adds the rows, with the mutexes' names as far as they are known.
pub(crate) fn add_mutexes(
    alloc: Global,
    text: &mut String,
    names: &[Text],
    holds: &[Hold],
    frame: Frame,
    mutexes: &[u8],
) -> Result<(), AllocError>
    requires rows { length mutexes.now ≤ 16 }
    requires few { length holds.now < 2 ^ 32 }
    ensures { OnOk result (string_bytes text.new
        ≡ string_bytes text.old ++ mutexes_text names.now holds.now frame 0 mutexes.now) }
{
    for (place, mutex) in mutexes.iter().enumerate() {
        let line = mutex_text(alloc, names, holds, frame.mutex_top(place as u8), *mutex)?;
        push_line(text, line)?;
    }
    Ok(())
}
