//! What each level has to spare, and what each process with the right to slack can have of it.
ghost use Rattle.std.specs.Prelude.{◌≡◌, ◌<◌, length, map, string_bytes, IfOk, OnOk};
ghost use Rattle.dk_config.specs.Checked.{IsAccepted, IsChecked, IsWithinLimits};
ghost use Rattle.show_rows.specs.Lines.{AddsLine, AddsLines};
ghost use Rattle.show_rows.specs.Rows.{cell_text};
ghost use Rattle.show_slack.specs.Slack.{IsLevelLine, IsProcessLine, IsShare, IsShareLine, IsSlack, longest_field, names_before, sentence, share_row};

use crate::rivals::{is_first, names_before};
use dk_allotment::{limiting_level, own_slack, own_slack_by, slowest_slack, spare_of};
use dk_certify::{Certified, level_row};
use dk_config::{Config, NoMemory};
use show_rows::Cell::{Gap, Number, Word};
use show_rows::{Cell, Form, add_columns, add_end, add_row};
use std::alloc::Global;

const COLUMNS: &str =
    "kind,name,level,period,budget,spare,alone,limited_by,had_by,longest_period,longest,behind";

const LEVEL: &str = "level {level} period {period} spare {spare}\n";

const FIRST: &str =
    "process {name} level {level} period {period} budget {budget} alone {alone} limited by level {limited_by} had by {had_by} first {longest} of {longest_period}\n";

const BEHIND: &str =
    "process {name} level {level} period {period} budget {budget} alone {alone} limited by level {limited_by} had by {had_by} behind {behind}\n";

/// The configuration of the layout.
pub(crate) fn config_of(certified: &Certified) -> &Config
    ensures same { result.now ≡ certified.now }
    ensures checked { IsChecked result.now }
    ensures limits { IsWithinLimits result.now }
    ensures accepted { IsAccepted result.now }
{
    certified.layout().config()
}

fn add_level(
    alloc: Global,
    out: &mut Vec<u8>,
    form: Form,
    certified: &Certified,
    level: u32,
) -> Result<(), NoMemory>
    requires level { level < length certified.now.levels }
    ensures { OnOk result (AddsLine (IsLevelLine form certified.now level) out.old.items out.new.items) }
{
    let config = config_of(certified);
    let cells = [
        Word("level"),
        Gap,
        Number(level as u64),
        Number(level_row(config, level as usize).period as u64),
        Gap,
        Number(spare_of(config, level) as u64),
        Gap,
        Gap,
        Gap,
        Gap,
        Gap,
        Gap,
    ];
    add_row(alloc, out, form, COLUMNS, LEVEL, &cells)?;
    Ok(())
}

/// How much slack a process is promised.
#[derive(Clone, Copy)]
pub(crate) struct Share {
    /// The most that it alone can be allotted in each of its windows.
    pub(crate) most: u32,
    /// The first level that doesn't hold one more.
    pub(crate) limit: u32,
    /// After how many ticks of each window it has had it.
    pub(crate) by: u32,
    /// Whether nobody stands before it.
    pub(crate) first: bool,
}

fn share_of(config: &Config, process: u32) -> Share
    requires checked { IsChecked config.now }
    requires limits { IsWithinLimits config.now }
    requires accepted { IsAccepted config.now }
    requires process { process < length config.now.processes }
    ensures { IsShare config.now process result }
{
    let most = own_slack(config, process);
    Share {
        most,
        limit: limiting_level(config, process, most),
        by: own_slack_by(config, process, most),
        first: is_first(config, process),
    }
}

fn sentence(first: bool) -> &'static str
    ensures { result.now ≡ sentence first }
{
    if first { FIRST } else { BEHIND }
}

/// What a process that stands first has of each longest window.
fn longest(config: &Config, first: bool) -> Cell<'static>
    requires checked { IsChecked config.now }
    requires limits { IsWithinLimits config.now }
    requires accepted { IsAccepted config.now }
    ensures { cell_text result ≡ longest_field config.now first }
{
    if first {
        Number(slowest_slack(config) as u64)
    } else {
        Gap
    }
}

fn share_in(certified: &Certified, process: u32) -> Share
    requires { process < length certified.now.processes }
    ensures { IsShare certified.now process result }
{
    share_of(config_of(certified), process)
}

fn names_in(alloc: Global, certified: &Certified, process: u32) -> Result<String, NoMemory>
    requires { process < length certified.now.processes }
    ensures { IfOk result (λ s. string_bytes s ≡ names_before certified.now process (length certified.now.processes)) }
{
    names_before(alloc, config_of(certified), process)
}

fn cells_of<'a>(
    certified: &'a Certified,
    process: u32,
    share: Share,
    names: &'a str,
) -> [Cell<'a>; 12]
    requires process { process < length certified.now.processes }
    requires names { names.now ≡ names_before certified.now process (length certified.now.processes) }
    ensures { map cell_text result ≡ share_row certified.now process share }
{
    let config = config_of(certified);
    let row = &config.processes.as_slice()[process as usize];
    let last = config.levels.len() - 1;
    [
        Word("process"),
        Word(row.name.as_str()),
        Number(row.level as u64),
        Number(level_row(config, row.level as usize).period as u64),
        Number(row.budget as u64),
        Gap,
        Number(share.most as u64),
        Number(share.limit as u64),
        Number(share.by as u64),
        Number(level_row(config, last).period as u64),
        longest(config, share.first),
        Word(names),
    ]
}

/// A process that has the right to slack.
fn add_share(
    alloc: Global,
    out: &mut Vec<u8>,
    form: Form,
    certified: &Certified,
    process: u32,
) -> Result<(), NoMemory>
    requires process { process < length certified.now.processes }
    ensures { OnOk result (AddsLine (IsShareLine form certified.now process) out.old.items out.new.items) }
{
    let share = share_in(certified, process);
    let names = names_in(alloc, certified, process)?;
    let cells = cells_of(certified, process, share, names.as_str());
    add_row(alloc, out, form, COLUMNS, sentence(share.first), &cells)?;
    Ok(())
}

fn add_process(
    alloc: Global,
    out: &mut Vec<u8>,
    form: Form,
    certified: &Certified,
    process: u32,
) -> Result<(), NoMemory>
    requires process { process < length certified.now.processes }
    ensures { OnOk result (AddsLine (IsProcessLine form certified.now process) out.old.items out.new.items) }
{
    if config_of(certified).processes.as_slice()[process as usize].slack {
        add_share(alloc, out, form, certified, process)
    } else {
        Ok(())
    }
}

#[tactic(auto, using(show_rows::proofs::Adding::one_more))]
fn add_levels(
    alloc: Global,
    out: &mut Vec<u8>,
    form: Form,
    certified: &Certified,
) -> Result<(), NoMemory>
    ensures { OnOk result (AddsLines (IsLevelLine form certified.now) (length certified.now.levels) out.old.items out.new.items) }
{
    for level in 0..config_of(certified).levels.len() as u32 {
        add_level(alloc, out, form, certified, level)?;
    }
    Ok(())
}

#[tactic(auto, using(show_rows::proofs::Adding::one_more))]
fn add_processes(
    alloc: Global,
    out: &mut Vec<u8>,
    form: Form,
    certified: &Certified,
) -> Result<(), NoMemory>
    ensures { OnOk result (AddsLines (IsProcessLine form certified.now) (length certified.now.processes) out.old.items out.new.items) }
{
    for process in 0..config_of(certified).processes.len() as u32 {
        add_process(alloc, out, form, certified, process)?;
    }
    Ok(())
}

/// What each level has to spare, and how much slack each process with the right to it can be promised, a row each. `Err`
/// is want of memory.
pub fn slack(alloc: Global, form: Form, certified: &Certified) -> Result<Vec<u8>, NoMemory>
    ensures { IfOk result (λ v. IsSlack form certified.now v.items) }
{
    let mut out = Vec::new(alloc);
    add_columns(&mut out, form, COLUMNS)?;
    add_levels(alloc, &mut out, form, certified)?;
    add_processes(alloc, &mut out, form, certified)?;
    add_end(&mut out, form)?;
    Ok(out)
}
