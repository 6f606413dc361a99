//! The faults that tests report, one after the other.
ghost use Rattle.std.specs.Prelude.{◌≡◌, ℕ, ◌^◌, ◌<◌, ◌++◌, List, [], length, OnOk, option_to_list};
ghost use Rattle.dk_config.specs.Tests.{Test, each_row, test_of};
ghost use Rattle.dk_faults.specs.Faults.{Reports, answer_of, broken, reported};

use dk_config::{Config, ConfigFault, Field, NoMemory, Section, make_fault};

/// What the tests of one row report: no row has more than three of one rule.
#[derive(Clone, Copy)]
pub struct RowFaults {
    pub first: Option<ConfigFault>,
    pub second: Option<ConfigFault>,
    pub third: Option<ConfigFault>,
}

/// The fault of this rule at this place, if the rule is broken there.
pub fn fault_if(
    broken: bool,
    number: u8,
    section: Section,
    row: u32,
    field: Field,
) -> Option<ConfigFault>
    ensures { result ≡ answer_of (test_of number section row field broken) }
{
    if broken {
        Some(make_fault(number, section, row, field))
    } else {
        None
    }
}

/// The faults of a row that has one test.
pub fn one_fault(fault: Option<ConfigFault>) -> RowFaults
    ensures { reported result ≡ option_to_list fault ++ [] }
{
    RowFaults {
        first: fault,
        second: None,
        third: None,
    }
}

fn add_one(found: &mut Vec<ConfigFault>, fault: Option<ConfigFault>) -> Result<(), NoMemory>
    ensures { OnOk result (found.new.items ≡ found.old.items ++ option_to_list fault) }
{
    if let Some(f) = fault {
        found.push(f)?;
    }
    Ok(())
}

/// Adds the faults of a row.
pub fn add(found: &mut Vec<ConfigFault>, faults: RowFaults) -> Result<(), NoMemory>
    ensures { OnOk result (found.new.items ≡ found.old.items ++ reported faults) }
{
    add_one(found, faults.first)?;
    add_one(found, faults.second)?;
    add_one(found, faults.third)
}

fn add_each<T, F: Fn(u32, &T) -> RowFaults>(
    found: &mut Vec<ConfigFault>,
    rows: &[T],
    test: F,
) -> Result<(), NoMemory>
    requires callable { F.IsAlwaysCallable test }
    requires few { length rows.now < 2 ^ 32 }
    ensures { (tests : ℕ → T → List Test) → Reports (F.post test) tests
        → OnOk result (found.new.items ≡ found.old.items ++ broken (each_row tests 0 rows.now)) }
{
    for (i, row) in rows.iter().enumerate() {
        add(found, test(i as u32, row))?;
    }
    Ok(())
}

/// Adds the faults of all rows.
pub fn add_rows<T, F: Fn(&Config, u32, &T) -> RowFaults>(
    found: &mut Vec<ConfigFault>,
    config: &Config,
    rows: &[T],
    test: F,
) -> Result<(), NoMemory>
    requires callable { F.IsAlwaysCallable test }
    requires few { length rows.now < 2 ^ 32 }
    ensures { (tests : ℕ → T → List Test) → Reports (F.post test config.entry) tests
        → OnOk result (found.new.items ≡ found.old.items ++ broken (each_row tests 0 rows.now)) }
{
    add_each(found, rows, |i, row| test(config, i, row))
}
