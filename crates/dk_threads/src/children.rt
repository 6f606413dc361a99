//! What changes in a list of children: starts, stops and ends.
ghost use Rattle.std.specs.Prelude.{◌≡◌, ◌<◌, All, filter_map, length, map};
ghost use Rattle.dk_threads.specs.Rows.{kept, started, stopped_child, stopped_with_main};

use crate::row::{kept, started, stopped_child, stopped_with_main};
use crate::rows::Rows;
use dk_trace::ThreadId;
use dk_windows::Windows;

// Each call takes the rows out one by one from the front, and puts what becomes of them at the end, so
// that once all had their turn they stand in their order again.

/// Makes each child live whose start is the tick.
pub fn start_due(rows: &mut Rows, now: u32)
    ensures { rows.new ≡ map (started now) rows.old }
{
    for turn in 0..rows.len() {
        let row = rows.take_first();
        rows.put_back(Some(started(row, now)));
    }
}

/// Stops the child of that name.
pub fn stop_child(rows: &mut Rows, id: ThreadId, windows: &Windows)
    requires { All (λ row. row.level < length windows.now.periods) rows.old }
    ensures { rows.new ≡ filter_map (stopped_child id windows.now) rows.old }
{
    for turn in 0..rows.len() {
        let row = rows.take_first();
        rows.put_back(stopped_child(row, id, windows));
    }
}

/// Stops all children that aren't stopped.
pub fn stop_with_main(rows: &mut Rows, windows: &Windows)
    requires { All (λ row. row.level < length windows.now.periods) rows.old }
    ensures { rows.new ≡ filter_map (stopped_with_main windows.now) rows.old }
{
    for turn in 0..rows.len() {
        let row = rows.take_first();
        rows.put_back(stopped_with_main(row, windows));
    }
}

/// Takes out the children whose end is the tick.
pub fn end_due(rows: &mut Rows, now: u32)
    ensures { rows.new ≡ filter_map (kept now) rows.old }
{
    for turn in 0..rows.len() {
        let row = rows.take_first();
        rows.put_back(kept(row, now));
    }
}
