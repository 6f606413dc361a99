//! Whether a ledger is clean.
ghost use Rattle.std.specs.Prelude.{◌≡◌};
ghost use Rattle.std.specs.List.{list_any};
ghost use Rattle.dk_window_report.specs.Late.{rows_at};
ghost use Rattle.dk_window_report.specs.Clean.{counts, has_slack, lives_on_slack};
ghost use Rattle.dk_window_report.specs.Report.{overruns_in};

use crate::account::Account;
use crate::late::{Late, row_at};
use crate::row::Row;

/// In how many windows a thread overran, over all rows before that tick, up to the last value.
pub fn overruns_in(tick: u32, lates: &[Late]) -> u32
    ensures { result ≡ overruns_in (rows_at tick lates.now) }
{
    let mut sum: u32 = 0;
    for place in 0..lates.len() {
        sum = sum.saturating_add(row_at(tick, &lates[place]).counts.overran);
    }
    sum
}

/// Whether the process had slack.
fn has_slack(accounts: &[Account], process: u8) -> bool
    ensures { result ≡ has_slack accounts.now process }
{
    match accounts.get(process as usize) {
        Some(account) => account.slack.count > 0,
        None => false,
    }
}

/// Whether its process had slack, and the thread never waited.
fn lives_on_slack(accounts: &[Account], row: &Row) -> bool
    ensures { result ≡ lives_on_slack accounts.now row.now }
{
    has_slack(accounts, row.thread.process) && row.counts.waited == 0
}

/// Whether it overran and, where those that live on slack are left out, isn't one of them.
pub fn counts(sparing: bool, accounts: &[Account], row: &Row) -> bool
    ensures { result ≡ counts sparing accounts.now row.now }
{
    row.counts.overran > 0 && !(sparing && lives_on_slack(accounts, row))
}

/// Whether any counts, of the rows before that tick.
pub fn any_counts(sparing: bool, accounts: &[Account], tick: u32, lates: &[Late]) -> bool
    ensures { result ≡ list_any (counts sparing accounts.now) (rows_at tick lates.now) }
{
    for place in 0..lates.len() {
        if counts(sparing, accounts, &row_at(tick, &lates[place])) {
            return true;
        }
    }
    false
}
