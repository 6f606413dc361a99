//! Tests of the report: tables of times, in each form, right and wrong.
ghost use Rattle.std.specs.Prelude.{◌≡◌, IfOk};

use crate::{BudgetForm, tell_budgets};
use dk_config::{Config, Layout};
use dk_loader::read_config;
use std::alloc::Global;
use std::test::Fail;

/// Two switches of 2 ticks; in a window of 100 ticks 99 are for budgets.
const FRAME: &str =
    "version = 1\n[costs]\nswitch = 2\ncall = 1\n[[level]]\nperiod = 100\nrelease = 1\n[[process]]\nname = \"nav\"\nprogram = \"a\"\nlevel = 0\nbudget = 30\n[[process]]\nname = \"radio\"\nprogram = \"b\"\nlevel = 0\nbudget = 40\n";

/// The longest job of nav takes 17 ticks and both switches, and is told apart from the second; radio keeps its budget.
const TEXT: &str =
    "process nav jobs 3 greatest 17 second 14 least 21 budget 23 now 30 by one job alone\nprocess radio has no times, budget 40\ncertified\n";

const TABLE: &str =
    "kind,name,jobs,greatest,second,least,budget,now,level,needs,period,over,rule\nprocess,nav,3,17,14,21,23,30,,,,,\nunmeasured,radio,,,,,,40,,,,,\ncertified,,,,,,,,,,,,\n";

const TOML: &str = "budget = 23 # nav\n# certified\n";

/// Both need 1 tick of 100 more than there is.
const TOO_MUCH: &str =
    "process nav jobs 1 greatest 46 second 0 least 50 budget 50 now 30 by one job alone\nprocess radio jobs 1 greatest 46 second 0 least 50 budget 50 now 40 by one job alone\nnot certified: level 0 needs 101 of 100, 1 too many\n";

/// A comma in a number, a unit, a zero, and a column of no process.
const WRONG: &str =
    "times: column 2 is no process\ntimes of nav\nprofile: line 3: a number is wanted\nprofile: line 4: 1 to 1000000 are allowed\nprofile: line 5: 2 cells are wanted\nfaults 3\n";

/// The second column of nav would be passed over, and its 90 ticks with it; that of no process is told as such each time.
const TWICE: &str =
    "times: column 2 is no process\ntimes: column 3 is nav once more\ntimes: column 4 is no process\ntimes: column 5 is nav once more\n";

/// The layout of the frame, and its configuration once more.
fn frame(alloc: Global) -> Result<(Layout, Config), Fail>
    ensures { IfOk result (λ p. p.1 ≡ p.0) }
{
    let config = read_config(alloc, FRAME.as_bytes())?;
    let copy = read_config(alloc, FRAME.as_bytes())?;
    match Layout::of(config) {
        Ok(layout) => Ok((layout, copy)),
        Err(_) => Err("a configuration that breaks a rule".into()),
    }
}

/// Fails where something else is told.
fn tells(
    alloc: Global,
    form: BudgetForm,
    percent: u32,
    table: &str,
    expected: &str,
) -> Result<(), Fail> {
    if table.len() > 1_048_576 || percent > 1000 {
        return Err("too long".into());
    }
    let (layout, copy) = frame(alloc)?;
    let told = tell_budgets(alloc, form, &layout, copy, table.as_bytes(), percent)?;
    if told.text.as_slice() == expected.as_bytes() {
        return Ok(());
    }
    Err(Fail::new(format_args!("{expected}")))
}

#[test]
fn budgets_are_told(rt: HostRuntime) -> Result<(), Fail> {
    let alloc = rt.alloc();
    let times = "nav\n17\n12\n14\n";
    tells(alloc, BudgetForm::Text, 10, times, TEXT)?;
    tells(alloc, BudgetForm::Table, 10, times, TABLE)?;
    tells(alloc, BudgetForm::Toml, 10, times, TOML)?;
    tells(alloc, BudgetForm::Text, 0, "radio,nav\n46,46\n", TOO_MUCH)?;
    let wrong = "nav,other\n17,1\n7us,1\n0,1\n1,200,3\n";
    tells(alloc, BudgetForm::Text, 0, wrong, WRONG)?;
    let twice = "nav,other,nav,other,nav\n17,1,90,1,1\n";
    tells(alloc, BudgetForm::Text, 0, twice, TWICE)
}
