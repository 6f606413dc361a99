//! The present window of one level.
ghost use Rattle.std.specs.Prelude.{◌≡◌, ◌+◌, ◌<◌, ◌^◌, All, false, map};
ghost use Rattle.dk_windows.specs.Rows.{first_ends_at, moved};

use crate::period::Period;

/// A level's period, and the tick where the window starts that the present one lies in.
#[derive(Clone, Copy, Default, PartialEq, Eq)]
pub struct Window {
    pub period: Period,
    pub start: u32,
}

/// Whether the window of the first level ends at the tick.
fn first_ends_at(windows: &[Window], tick: u32) -> bool
    requires { All (λ w. w.start + w.period < 2 ^ 32) windows.now }
    ensures { result ≡ first_ends_at tick windows.now }
{
    match windows.first() {
        Some(first) => first.start + first.period.ticks() == tick,
        None => false,
    }
}

/// The window of the tick `next`, from that of the tick before it.
fn moved(window: &Window, next: u32) -> Window
    requires { window.now.start + window.now.period < 2 ^ 32 }
    ensures { result ≡ moved next window.now }
{
    let is_over = window.start + window.period.ticks() == next;
    Window {
        period: window.period,
        start: if is_over { next } else { window.start },
    }
}

/// Moves each window that ends at the tick `next` on to the one that begins there.
fn move_ended(windows: &mut [Window], next: u32)
    requires { All (λ w. w.start + w.period < 2 ^ 32) windows.old }
    ensures { windows.new ≡ map (moved next) windows.old }
{
    for window in windows.iter_mut() {
        *window = moved(window, next);
    }
}

/// Moves the windows on to the tick `next`. Where that of the first level doesn't end, none does.
pub fn move_on(windows: &mut [Window], next: u32)
    requires short { All (λ w. w.start + w.period < 2 ^ 32) windows.old }
    requires still { first_ends_at next windows.old ≡ false → map (moved next) windows.old ≡ windows.old }
    ensures { windows.new ≡ map (moved next) windows.old }
{
    if first_ends_at(windows, next) {
        move_ended(windows, next);
    }
}
