//! The threads of windows that begin: each gets its share, in its job and in its level's sum. By the tables alone.
ghost use Rattle.std.specs.Prelude.{ℕ, ◌≡◌, ◌+◌, ◌*◌, ◌≤◌, ◌^◌, [], ◌∷◌, length, get_or};
ghost use Rattle.dk_dispatch.specs.Sums.{HasRoom, IsAdded};
ghost use Rattle.dk_threads.specs.Table.{children_at};
ghost use Rattle.dk_recount.specs.Opening.{AreKnown, CanAllSit, CanSit, IsKnownRow, all_rows, given, given_one, given_steps, is_between, quieted, quieted_one, rows_in, share_in, shares_in, steps_of};

use crate::node::node_on;
use dk_budget::Loans;
use dk_config::{MAX_CHILDREN, MAX_LEVELS, MAX_THREADS};
use dk_ready::Jobs;
use dk_slack::SlackTable;
use dk_steps::Steps;
use dk_threads::{ThreadRow, Threads};
use dk_trace::ThreadId;
use dk_windows::Windows;
use std::sync::ledger::Ledger;

/// The share of the row's thread of the present window of its level, in ticks. A stopped main has none.
fn share_of(loans: &Loans, windows: &Windows, row: ThreadRow) -> u32
    requires levels { windows.now.periods ≡ loans.now.periods }
    requires known { IsKnownRow loans.now windows.now row }
    ensures { result ≡ share_in loans.now windows.now row }
{
    if row.id.serial == 0 {
        loans.main_share(windows, row.id.process)
    } else {
        loans.child_share(windows, row.id.process, row.id.serial)
    }
}

/// Where a window of its level begins, the thread gets its share of it, and its wish for slack goes.
fn begin_row<L: Ledger>(
    loans: &Loans,
    windows: &Windows,
    jobs: &mut Jobs,
    slack: &mut SlackTable,
    row: ThreadRow,
    steps: &mut Steps<L>,
)
    requires levels { windows.now.periods ≡ loans.now.periods }
    requires known { IsKnownRow loans.now windows.now row }
    requires seat { CanSit windows.now row jobs.old }
    ensures jobs { jobs.new ≡ given_one loans.now windows.now row jobs.old }
    ensures slack { slack.new ≡ record slack.old { wishes = quieted_one windows.now row slack.old.wishes } }
    ensures steps { steps.new ≡ steps.old + steps_of loans.now windows.now row slack.old.wishes }
{
    if windows.begins(row.level) {
        let node = node_on(row);
        let share = share_of(loans, windows, row);
        slack.drop_request(node, steps);
        jobs.release(node, row.id, row.level, share, steps);
    }
}

/// Does so for the children of a process from the one at that place on.
fn begin_children<L: Ledger>(
    threads: &Threads,
    loans: &Loans,
    windows: &Windows,
    jobs: &mut Jobs,
    slack: &mut SlackTable,
    process: u8,
    steps: &mut Steps<L>,
)
    requires levels { windows.now.periods ≡ loans.now.periods }
    requires few { length (children_at threads.now process) ≤ MAX_CHILDREN }
    requires known { AreKnown loans.now windows.now (children_at threads.now process) }
    requires seats { CanAllSit loans.now windows.now (children_at threads.now process) jobs.old }
    ensures jobs { jobs.new ≡ given loans.now windows.now (children_at threads.now process) jobs.old }
    ensures slack { slack.new ≡ record slack.old {
      wishes = quieted windows.now
          (children_at threads.now process) slack.old.wishes;
    } }
    ensures steps { steps.new ≡ steps.old + given_steps loans.now windows.now
        (children_at threads.now process) slack.old.wishes }
{
    for index in 0..MAX_CHILDREN as u8 {
        if let Some(row) = threads.child(process, index) {
            begin_row(loans, windows, jobs, slack, row, steps);
        }
    }
}

/// Does so for all threads of a process.
fn begin_process<L: Ledger>(
    threads: &Threads,
    loans: &Loans,
    windows: &Windows,
    jobs: &mut Jobs,
    slack: &mut SlackTable,
    process: u8,
    steps: &mut Steps<L>,
)
    requires levels { windows.now.periods ≡ loans.now.periods }
    requires few { length (children_at threads.now process) ≤ MAX_CHILDREN }
    requires known { AreKnown loans.now windows.now (rows_in threads.now process) }
    requires seats { CanAllSit loans.now windows.now (rows_in threads.now process) jobs.old }
    ensures jobs { jobs.new ≡ given loans.now windows.now (rows_in threads.now process) jobs.old }
    ensures slack { slack.new ≡ record slack.old {
      wishes = quieted windows.now
          (rows_in threads.now process) slack.old.wishes;
    } }
    ensures steps { steps.new ≡ steps.old + given_steps loans.now windows.now
        (rows_in threads.now process) slack.old.wishes }
{
    if let Some(row) = threads.find(ThreadId { process, serial: 0 }) {
        begin_row(loans, windows, jobs, slack, row, steps);
    }
    begin_children(threads, loans, windows, jobs, slack, process, steps);
}

/// Does so for all threads.
pub fn begin_threads<L: Ledger>(
    threads: &Threads,
    loans: &Loans,
    windows: &Windows,
    jobs: &mut Jobs,
    slack: &mut SlackTable,
    processes: u8,
    steps: &mut Steps<L>,
)
    requires levels { windows.now.periods ≡ loans.now.periods }
    requires processes { length threads.now.families ≡ processes }
    requires known { AreKnown loans.now windows.now (all_rows threads.now) }
    requires seats { CanAllSit loans.now windows.now (all_rows threads.now) jobs.old }
    ensures jobs { jobs.new ≡ given loans.now windows.now (all_rows threads.now) jobs.old }
    ensures slack { slack.new ≡ record slack.old {
      wishes = quieted windows.now
          (all_rows threads.now) slack.old.wishes;
    } }
    ensures steps { steps.new ≡ steps.old + given_steps loans.now windows.now (all_rows threads.now) slack.old.wishes }
{
    threads.rows_are_in_order();
    for process in 0..processes {
        begin_process(threads, loans, windows, jobs, slack, process, steps);
    }
}

/// Adds the row's share to the sum of its level, where that is one of those up to the last.
fn add_share(
    loans: &Loans,
    windows: &Windows,
    row: ThreadRow,
    last: u8,
    sums: &mut [u64; MAX_LEVELS],
)
    requires levels { windows.now.periods ≡ loans.now.periods }
    requires few { length windows.now.periods ≤ MAX_LEVELS }
    requires known { IsKnownRow loans.now windows.now row }
    requires room { HasRoom (2 ^ 32) sums.old }
    ensures { IsAdded loans.now windows.now last (row ∷ []) (2 ^ 32) sums.old sums.new }
{
    if row.level <= last {
        sums[row.level as usize] += share_of(loans, windows, row) as u64;
    }
}

/// Adds those of the children of a process.
fn add_children(
    threads: &Threads,
    loans: &Loans,
    windows: &Windows,
    process: u8,
    last: u8,
    sums: &mut [u64; MAX_LEVELS],
)
    requires levels { windows.now.periods ≡ loans.now.periods }
    requires few_levels { length windows.now.periods ≤ MAX_LEVELS }
    requires few { length (children_at threads.now process) ≤ MAX_CHILDREN }
    requires known { AreKnown loans.now windows.now (children_at threads.now process) }
    requires room { HasRoom (MAX_CHILDREN * 2 ^ 32) sums.old }
    ensures { IsAdded loans.now windows.now last
        (children_at threads.now process) (MAX_CHILDREN * 2 ^ 32) sums.old sums.new }
{
    for index in 0..MAX_CHILDREN as u8 {
        if let Some(row) = threads.child(process, index) {
            add_share(loans, windows, row, last, sums);
        }
    }
}

/// Adds those of all its threads.
fn add_process(
    threads: &Threads,
    loans: &Loans,
    windows: &Windows,
    process: u8,
    last: u8,
    sums: &mut [u64; MAX_LEVELS],
)
    requires levels { windows.now.periods ≡ loans.now.periods }
    requires few_levels { length windows.now.periods ≤ MAX_LEVELS }
    requires few { length (children_at threads.now process) ≤ MAX_CHILDREN }
    requires known { AreKnown loans.now windows.now (rows_in threads.now process) }
    requires room { HasRoom (MAX_THREADS * 2 ^ 32) sums.old }
    ensures { IsAdded loans.now windows.now last
        (rows_in threads.now process) (MAX_THREADS * 2 ^ 32) sums.old sums.new }
{
    if let Some(row) = threads.find(ThreadId { process, serial: 0 }) {
        add_share(loans, windows, row, last, sums);
    }
    add_children(threads, loans, windows, process, last, sums);
}

/// For each level up to the last, the shares of its threads of its present window. Each row is looked
/// at once.
pub fn shares_by_level(
    threads: &Threads,
    loans: &Loans,
    windows: &Windows,
    processes: u8,
    last: u8,
) -> [u64; MAX_LEVELS]
    requires levels { windows.now.periods ≡ loans.now.periods }
    requires few_levels { length windows.now.periods ≤ MAX_LEVELS }
    requires processes { length threads.now.families ≡ processes }
    requires known { AreKnown loans.now windows.now (all_rows threads.now) }
    ensures size { length result ≡ MAX_LEVELS }
    ensures sums { (level : ℕ) → level ≤ last
        → get_or result level 0 ≡ shares_in loans.now windows.now (is_between level level) (all_rows threads.now) }
    ensures few { (level : ℕ) → get_or result level 0 ≤ 2 ^ 8 * (MAX_THREADS * 2 ^ 32) }
{
    threads.rows_are_in_order();
    let mut sums = [0; MAX_LEVELS];
    for process in 0..processes {
        add_process(threads, loans, windows, process, last, &mut sums);
    }
    sums
}
