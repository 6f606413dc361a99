//! What a part of a layout takes of a window of a level.
ghost use Rattle.std.specs.Prelude.{◌≡◌, ◌-◌, ◌<◌, ◌≤◌, length, nat_lt};
ghost use Rattle.dk_config.specs.Certification.{level_blocking};
ghost use Rattle.dk_config.specs.Windows.{period};
ghost use Rattle.show_rows.specs.Rows.{cell_text, number_field};
ghost use Rattle.show_layout.specs.Takes.{IsPart, needs, release_ticks, takes, told_unless, told_where};
ghost use Rattle.show_layout.specs.declared.takes.Part.{Part as Of};

use dk_certify::{demand_of, level_row, longest_delay};
use dk_config::Layout;
use dk_plan::windows_in;
use show_rows::Cell;

/// What takes ticks of a window, and what that comes to.
#[derive(Clone, Copy)]
pub enum Part {
    /// The window's length.
    Period,
    /// The kernel's own work of this level.
    Release(u32),
    /// The budget of this process.
    Process(u32),
    /// All that the level can need.
    Demand,
    /// The longest wait for a slower thread's mutex.
    Blocking,
    /// What is left of the window.
    Spare,
    /// By how much the window is too short.
    Over,
}

/// So many ticks, or nothing.
pub(crate) fn ticks_cell(ticks: Option<u64>) -> Cell<'static>
    ensures { cell_text result ≡ number_field ticks }
{
    match ticks {
        Some(ticks) => Cell::Number(ticks),
        None => Cell::Gap,
    }
}

pub(crate) fn window_of(layout: &Layout, level: u32) -> u64
    requires level { level < length layout.now.levels }
    ensures { result ≡ period layout.now level }
{
    level_row(layout.config(), level as usize).period as u64
}

pub(crate) fn blocking_of(layout: &Layout, level: u32) -> u32
    ensures { result ≡ level_blocking layout.now level }
{
    let config = layout.config();
    longest_delay(config, level, config.mutexes.as_slice())
}

/// What the level can need and wait for, in one of its windows.
fn needs_of(layout: &Layout, level: u32) -> u64
    requires level { level < length layout.now.levels }
    ensures { result ≡ needs layout.now level }
{
    let demand = demand_of(layout.config(), level as usize);
    demand + blocking_of(layout, level) as u64
}

fn release_ticks(layout: &Layout, level: u32, faster: u32) -> u64
    requires level { level < length layout.now.levels }
    requires faster { faster ≤ level }
    ensures { result ≡ release_ticks layout.now level faster }
{
    let config = layout.config();
    let windows = windows_in(config, level, faster);
    level_row(config, faster as usize).release as u64 * windows as u64
}

fn release_taken(layout: &Layout, level: u32, of: u32) -> Option<u64>
    requires level { level < length layout.now.levels }
    ensures { result ≡ takes layout.now (Of.Release of) level }
{
    if level < of {
        None
    } else {
        Some(release_ticks(layout, level, of))
    }
}

fn budget_taken(layout: &Layout, level: u32, process: u32) -> Option<u64>
    requires level { level < length layout.now.levels }
    requires process { process < length layout.now.processes }
    ensures { result ≡ takes layout.now (Of.Process process) level }
{
    let config = layout.config();
    let row = &config.processes.as_slice()[process as usize];
    if level < row.level {
        return None;
    }
    Some(row.budget as u64 * windows_in(config, level, row.level) as u64)
}

fn spare_of(window: u64, needs: u64) -> Option<u64>
    ensures { result ≡ told_unless (nat_lt window needs) (window - needs) }
{
    if window < needs {
        None
    } else {
        Some(window - needs)
    }
}

fn over_of(window: u64, needs: u64) -> Option<u64>
    ensures { result ≡ told_where (nat_lt window needs) (needs - window) }
{
    if window < needs {
        Some(needs - window)
    } else {
        None
    }
}

/// What the part takes of a window of the level, or what there is of it: nothing where it is of a slower level.
pub(crate) fn takes(layout: &Layout, part: Part, level: u32) -> Option<u64>
    requires level { level < length layout.now.levels }
    requires part { IsPart layout.now part }
    ensures { result ≡ takes layout.now part level }
{
    match part {
        Part::Period => Some(window_of(layout, level)),
        Part::Release(of) => release_taken(layout, level, of),
        Part::Process(process) => budget_taken(layout, level, process),
        Part::Demand => Some(demand_of(layout.config(), level as usize)),
        Part::Blocking => Some(blocking_of(layout, level) as u64),
        Part::Spare => spare_of(window_of(layout, level), needs_of(layout, level)),
        Part::Over => over_of(window_of(layout, level), needs_of(layout, level)),
    }
}
