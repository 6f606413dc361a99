//! The report: what each process gets, and whether all of it certifies.
ghost use Rattle.std.specs.Prelude.{◌≡◌, ◌≤◌, ◌++◌, if◌then◌else◌, length, map, IfOk, OnOk};
ghost use Rattle.std.specs.List.{AllByRecursion};
ghost use Rattle.dk_config.specs.Checked.{IsWithinLimits};
ghost use Rattle.dk_profile.specs.declared.TheConstants.{MAX_PROFILE_BYTES};
ghost use Rattle.show_rows.specs.Rows.{cell_text};
ghost use Rattle.show_budgets.specs.Least.{IsShort, ask_of};
ghost use Rattle.show_budgets.specs.Report.{AreAsked, AreBudgets, ask_told, broken_row, certified_row, end_of, failing_row, is_alone, kept_row, measure_row, pattern, row_form, rows_told, sentence, verdict_told};
ghost use Rattle.show_budgets.specs.declared.measure.TheConstants.{MAX_RESERVE};
ghost use Rattle.show_budgets.specs.declared.together.Together.{Together};

use crate::measure::{MAX_RESERVE, Measure, ask_of, longer};
use crate::together::{Together, verdict_on, with_asked};
use crate::wrong::table_told;
use dk_certify::Overload;
use dk_config::{Config, ConfigFault, Layout, NoMemory, ProcessRow};
use show_rows::Cell::{Gap, Number, Word};
use show_rows::{Cell, Form, add_columns, add_row};
use std::alloc::{AllocError, Global};

/// The form in which budgets are told.
#[derive(Clone, Copy)]
pub enum BudgetForm {
    /// Lines of a text.
    Text,
    /// Records of a table.
    Table,
    /// Lines to paste into a configuration in TOML, the budget of each process that has times, with its name. They are no
    /// document.
    Toml,
}

/// How the report ends.
#[derive(Clone, Copy)]
pub enum Ended {
    /// All budgets together certify.
    Certified,
    /// They don't.
    Uncertified,
    /// The table is at fault, and nothing else is told.
    Faulty,
}

/// What is told, and how it ends.
#[derive(Drop)]
pub struct Budgets {
    pub text: Vec<u8>,
    pub ended: Ended,
}

const COLUMNS: &str =
    "kind,name,jobs,greatest,second,least,budget,now,level,needs,period,over,rule";

const MEASURED: &str =
    "process {name} jobs {jobs} greatest {greatest} second {second} least {least} budget {budget} now {now}\n";

const ALONE: &str =
    "process {name} jobs {jobs} greatest {greatest} second {second} least {least} budget {budget} now {now} by one job alone\n";

const MEASURED_TOML: &str = "budget = {budget} # {name}\n";

const UNMEASURED: &str = "process {name} has no times, budget {now}\n";

const CERTIFIED: &str = "certified\n";

const CERTIFIED_TOML: &str = "# certified\n";

const FAILING: &str = "not certified: level {level} needs {needs} of {period}, {over} too many\n";

const FAILING_TOML: &str =
    "# not certified: level {level} needs {needs} of {period}, {over} too many\n";

const BROKEN: &str = "not certified: a budget breaks rule C{rule}\n";

const BROKEN_TOML: &str = "# not certified: a budget breaks rule C{rule}\n";

/// As a row is written.
fn row_form(form: BudgetForm) -> Form
    ensures { result ≡ row_form form }
{
    match form {
        BudgetForm::Table => Form::Record,
        _ => Form::Line,
    }
}

/// The sentence of a form.
fn pattern(form: BudgetForm, text: &'static str, toml: &'static str) -> &'static str
    ensures { result.now ≡ pattern form text.now toml.now }
{
    match form {
        BudgetForm::Toml => toml,
        _ => text,
    }
}

/// Whether the longest job is longer than the second with the reserve.
fn is_alone(percent: u32, measure: Measure) -> bool
    requires short { measure.second ≤ 1_000_000 }
    requires reserve { percent ≤ MAX_RESERVE }
    ensures { result ≡ is_alone percent measure }
{
    longer(percent, measure.second) < measure.greatest
}

fn sentence(alone: bool) -> &'static str
    ensures { result.now ≡ sentence alone }
{
    if alone { ALONE } else { MEASURED }
}

fn measure_cells<'a>(row: &'a ProcessRow, measure: Measure) -> [Cell<'a>; 13]
    ensures { map cell_text result ≡ measure_row row.entry.now measure }
{
    [
        Word("process"),
        Word(row.name.as_str()),
        Number(measure.jobs),
        Number(measure.greatest as u64),
        Number(measure.second as u64),
        Number(measure.least as u64),
        Number(measure.budget as u64),
        Number(row.budget as u64),
        Gap,
        Gap,
        Gap,
        Gap,
        Gap,
    ]
}

fn kept_cells<'a>(row: &'a ProcessRow) -> [Cell<'a>; 13]
    ensures { map cell_text result ≡ kept_row row.entry.now }
{
    [
        Word("unmeasured"),
        Word(row.name.as_str()),
        Gap,
        Gap,
        Gap,
        Gap,
        Gap,
        Number(row.budget as u64),
        Gap,
        Gap,
        Gap,
        Gap,
        Gap,
    ]
}

/// What a process gets.
fn add_ask(
    alloc: Global,
    out: &mut Vec<u8>,
    form: BudgetForm,
    percent: u32,
    row: &ProcessRow,
    ask: Option<Measure>,
) -> Result<(), AllocError>
    requires short { IsShort ask }
    requires reserve { percent ≤ MAX_RESERVE }
    ensures { OnOk result (out.new.items ≡ out.old.items ++ ask_told form percent row.now ask) }
{
    match ask {
        Some(measure) => {
            let words = pattern(form, sentence(is_alone(percent, measure)), MEASURED_TOML);
            let cells = measure_cells(row, measure);
            add_row(alloc, out, row_form(form), COLUMNS, words, &cells)
        }
        None => {
            let words = pattern(form, UNMEASURED, "");
            add_row(alloc, out, row_form(form), COLUMNS, words, &kept_cells(row))
        }
    }
}

/// What each process gets.
fn add_asks(
    alloc: Global,
    out: &mut Vec<u8>,
    form: BudgetForm,
    percent: u32,
    rows: &[ProcessRow],
    asks: &[Option<Measure>],
) -> Result<(), AllocError>
    requires short { AllByRecursion IsShort asks.now }
    requires reserve { percent ≤ MAX_RESERVE }
    ensures { OnOk result (out.new.items ≡ out.old.items ++ rows_told form percent rows.now asks.now) }
{
    match rows {
        [] => Ok(()),
        [row, rows @ ..] => match asks {
            [] => Ok(()),
            [ask, asks @ ..] => {
                add_ask(alloc, out, form, percent, row, *ask)?;
                add_asks(alloc, out, form, percent, rows, asks)
            }
        },
    }
}

fn certified_cells() -> [Cell<'static>; 13]
    ensures { map cell_text result ≡ certified_row }
{
    [
        Word("certified"),
        Gap,
        Gap,
        Gap,
        Gap,
        Gap,
        Gap,
        Gap,
        Gap,
        Gap,
        Gap,
        Gap,
        Gap,
    ]
}

fn failing_cells(overload: Overload) -> [Cell<'static>; 13]
    ensures { map cell_text result ≡ failing_row overload }
{
    [
        Word("failing"),
        Gap,
        Gap,
        Gap,
        Gap,
        Gap,
        Gap,
        Gap,
        Number(overload.level as u64),
        Number(overload.needs),
        Number(overload.window as u64),
        Number(overload.needs.saturating_sub(overload.window as u64)),
        Gap,
    ]
}

fn broken_cells(fault: ConfigFault) -> [Cell<'static>; 13]
    ensures { map cell_text result ≡ broken_row fault }
{
    [
        Word("broken"),
        Gap,
        Gap,
        Gap,
        Gap,
        Gap,
        Gap,
        Gap,
        Gap,
        Gap,
        Gap,
        Gap,
        Number(fault.number as u64),
    ]
}

/// The first level that may miss its window, and by how much.
fn add_failing(
    alloc: Global,
    out: &mut Vec<u8>,
    form: BudgetForm,
    overload: Overload,
) -> Result<(), AllocError>
    ensures { OnOk result (out.new.items ≡ out.old.items ++ verdict_told form (Together.Fails overload)) }
{
    let words = pattern(form, FAILING, FAILING_TOML);
    let cells = failing_cells(overload);
    add_row(alloc, out, row_form(form), COLUMNS, words, &cells)
}

/// The rule that a budget breaks.
fn add_broken(
    alloc: Global,
    out: &mut Vec<u8>,
    form: BudgetForm,
    fault: ConfigFault,
) -> Result<(), AllocError>
    ensures { OnOk result (out.new.items ≡ out.old.items ++ verdict_told form (Together.Broken fault)) }
{
    let words = pattern(form, BROKEN, BROKEN_TOML);
    let cells = broken_cells(fault);
    add_row(alloc, out, row_form(form), COLUMNS, words, &cells)
}

/// Whether all budgets together certify.
fn add_verdict(
    alloc: Global,
    out: &mut Vec<u8>,
    form: BudgetForm,
    verdict: Together,
) -> Result<(), AllocError>
    ensures { OnOk result (out.new.items ≡ out.old.items ++ verdict_told form verdict) }
{
    match verdict {
        Together::Certified => {
            let words = pattern(form, CERTIFIED, CERTIFIED_TOML);
            add_row(
                alloc,
                out,
                row_form(form),
                COLUMNS,
                words,
                &certified_cells(),
            )
        }
        Together::Fails(overload) => add_failing(alloc, out, form, overload),
        Together::Broken(fault) => add_broken(alloc, out, form, fault),
    }
}

fn end_of(verdict: Together) -> Ended
    ensures { result ≡ end_of verdict }
{
    match verdict {
        Together::Certified => Ended::Certified,
        _ => Ended::Uncertified,
    }
}

/// What each column comes to.
fn all_asks(
    alloc: Global,
    config: &Config,
    percent: u32,
    table: &[u8],
) -> Result<Vec<Option<Measure>>, NoMemory>
    requires limits { IsWithinLimits config.now }
    requires reserve { percent ≤ MAX_RESERVE }
    requires few { length table.now ≤ MAX_PROFILE_BYTES }
    ensures asks { IfOk result (λ v. v.items ≡ map (ask_of config.now percent table.now) config.now.processes) }
    ensures short { IfOk result (λ v. AllByRecursion IsShort v.items) }
{
    let mut asks = Vec::new(alloc);
    for row in config.processes.as_slice() {
        asks.push(ask_of(alloc, config, percent, table, row)?)?;
    }
    Ok(asks)
}

/// What is told of the budgets that the columns ask for, where nothing is wrong with them.
fn of_asks(
    alloc: Global,
    form: BudgetForm,
    layout: &Layout,
    copy: Config,
    percent: u32,
    asks: &[Option<Measure>],
) -> Result<Budgets, NoMemory>
    requires copied { copy ≡ layout.now }
    requires short { AllByRecursion IsShort asks.now }
    requires reserve { percent ≤ MAX_RESERVE }
    ensures { IfOk result (AreAsked form layout.now percent asks.now) }
{
    let mut text = Vec::new(alloc);
    add_columns(&mut text, row_form(form), COLUMNS)?;
    let rows = layout.config().processes.as_slice();
    add_asks(alloc, &mut text, form, percent, rows, asks)?;
    let verdict = verdict_on(with_asked(copy, asks));
    add_verdict(alloc, &mut text, form, verdict)?;
    Ok(Budgets {
        text,
        ended: end_of(verdict),
    })
}

/// What each process of the layout needs by its column in a table of measured times of at most 1,048,576 bytes, with a
/// reserve of so many percent, at most 1,000, and whether the layout certifies with all these budgets; where something is
/// wrong with a column, all that is wrong, and nothing else. `copy` is the layout's configuration once more, which gets the
/// budgets. `Err` is want of memory.
pub fn tell_budgets(
    alloc: Global,
    form: BudgetForm,
    layout: &Layout,
    copy: Config,
    table: &[u8],
    percent: u32,
) -> Result<Budgets, NoMemory>
    requires copied { copy ≡ layout.now }
    requires few { length table.now ≤ MAX_PROFILE_BYTES }
    requires reserve { percent ≤ MAX_RESERVE }
    ensures { IfOk result (AreBudgets form layout.now percent table.now) }
{
    let wrong = table_told(alloc, layout.config(), table)?;
    if !wrong.is_empty() {
        return Ok(Budgets {
            text: wrong,
            ended: Ended::Faulty,
        });
    }
    let asks = all_asks(alloc, layout.config(), percent, table)?;
    of_asks(alloc, form, layout, copy, percent, asks.as_slice())
}
