//! A configuration, written as a document.

// A configuration as a table, and its text.
ghost use Rattle.std.specs.Prelude.{◌≡◌, ◌≤◌, pos, true, IfOk, OnOk, Ok, Some, map};
ghost use Rattle.std.specs.List.{list_all};
ghost use Rattle.toml.specs.Data.{string, integer, array, table, members_depth};
ghost use Rattle.toml.specs.View.{view, table_view, items_of};
ghost use Rattle.dk_config.specs.Checked.{BreaksNoRule};
ghost use Rattle.dk_loader.specs.Keys.{key_name};
ghost use Rattle.dk_loader.specs.Reading.{document, reading};
ghost use Rattle.dk_loader.specs.Printed.{insert_member, is_small, costs_members, level_members, process_members, mutex_members, config_members, rows_data, are_small_costs, is_small_level, is_small_process, is_small_mutex, IsSmall};

use crate::keys::key_name;
use dk_config::{Config, Costs, Field, LevelRow, MutexRow, NoMemory, ProcessRow, Text};
use std::alloc::{AllocError, Global};
use toml::{Table, Value};

// The table with this value at the key. It is taken and given back, so that a want of memory leaves nothing to drop.
fn put(alloc: Global, mut table: Table, key: Field, value: Value) -> Result<Table, AllocError>
    ensures { IfOk result (λ t. table_view t ≡ insert_member (key_name key) (view value) (table_view table)) }
{
    let name = String::from_str(alloc, key_name(key))?;
    table.insert(name, value)?;
    Ok(table)
}

fn put_number(alloc: Global, table: Table, key: Field, n: u32) -> Result<Table, AllocError>
    ensures put { IfOk result (λ t. table_view t ≡ insert_member (key_name key) (integer (pos n)) (table_view table)) }
    ensures small { is_small n ≡ true }
{
    put(alloc, table, key, Value::Integer(i64::from(n)))
}

fn put_text(alloc: Global, table: Table, key: Field, text: &Text) -> Result<Table, AllocError>
    ensures { IfOk result (λ t. table_view t ≡ insert_member (key_name key) (string text.now) (table_view table)) }
{
    let text = String::from_str(alloc, text.as_str())?;
    put(alloc, table, key, Value::String(text))
}

fn costs_table(alloc: Global, costs: &Costs) -> Result<Table, AllocError>
    ensures members { IfOk result (λ t. table_view t ≡ costs_members costs.now) }
    ensures small { OnOk result (are_small_costs costs.now ≡ true) }
{
    let table = put_number(alloc, Table::new(alloc), Field::Switch, costs.switch)?;
    put_number(alloc, table, Field::Call, costs.call)
}

fn level_table(alloc: Global, level: &LevelRow) -> Result<Table, AllocError>
    ensures members { IfOk result (λ t. table_view t ≡ level_members level.now) }
    ensures small { OnOk result (is_small_level level.now ≡ true) }
{
    let table = put_number(alloc, Table::new(alloc), Field::Release, level.release)?;
    put_number(alloc, table, Field::Period, level.period)
}

fn process_table(alloc: Global, process: &ProcessRow) -> Result<Table, AllocError>
    ensures members { IfOk result (λ t. table_view t ≡ process_members process.now) }
    ensures small { OnOk result (is_small_process process.now ≡ true) }
{
    let table = put_number(alloc, Table::new(alloc), Field::Threads, process.threads)?;
    let table = put(alloc, table, Field::Slack, Value::Boolean(process.slack))?;
    let table = put_text(alloc, table, Field::Program, &process.program)?;
    let table = put_text(alloc, table, Field::Name, &process.name)?;
    let table = put_number(alloc, table, Field::Memory, process.memory)?;
    let table = put_number(alloc, table, Field::MaxLevel, process.max_level)?;
    let table = put_number(alloc, table, Field::Level, process.level)?;
    put_number(alloc, table, Field::Budget, process.budget)
}

fn users_value(alloc: Global, users: &[Text]) -> Result<Value, AllocError>
    ensures { IfOk result (λ v. view v ≡ array (items_of (map string users.now))) }
{
    let mut values = Vec::new(alloc);
    for user in users {
        values.push(Value::String(String::from_str(alloc, user.as_str())?))?;
    }
    Ok(Value::Array(values))
}

fn mutex_table(alloc: Global, mutex: &MutexRow) -> Result<Table, AllocError>
    ensures members { IfOk result (λ t. table_view t ≡ mutex_members mutex.now) }
    ensures small { OnOk result (is_small_mutex mutex.now ≡ true) }
{
    let users = users_value(alloc, &mutex.users)?;
    let table = put(alloc, Table::new(alloc), Field::Users, users)?;
    let table = put_text(alloc, table, Field::Name, &mutex.name)?;
    let table = put_number(alloc, table, Field::Hold, mutex.hold)?;
    put_number(alloc, table, Field::Ceiling, mutex.ceiling)
}

fn level_rows(alloc: Global, levels: &[LevelRow]) -> Result<Value, AllocError>
    ensures rows { IfOk result (λ v. view v ≡ rows_data level_members levels.now) }
    ensures small { OnOk result (list_all is_small_level levels.now ≡ true) }
{
    let mut rows = Vec::new(alloc);
    for level in levels {
        rows.push(Value::Table(level_table(alloc, level)?))?;
    }
    Ok(Value::Array(rows))
}

fn process_rows(alloc: Global, processes: &[ProcessRow]) -> Result<Value, AllocError>
    ensures rows { IfOk result (λ v. view v ≡ rows_data process_members processes.now) }
    ensures small { OnOk result (list_all is_small_process processes.now ≡ true) }
{
    let mut rows = Vec::new(alloc);
    for process in processes {
        rows.push(Value::Table(process_table(alloc, process)?))?;
    }
    Ok(Value::Array(rows))
}

fn mutex_rows(alloc: Global, mutexes: &[MutexRow]) -> Result<Value, AllocError>
    ensures rows { IfOk result (λ v. view v ≡ rows_data mutex_members mutexes.now) }
    ensures small { OnOk result (list_all is_small_mutex mutexes.now ≡ true) }
{
    let mut rows = Vec::new(alloc);
    for mutex in mutexes {
        rows.push(Value::Table(mutex_table(alloc, mutex)?))?;
    }
    Ok(Value::Array(rows))
}

#[tactic(auto, unfolding(crate::specs::Printed::config_members))]
fn config_table(alloc: Global, config: &Config) -> Result<Table, AllocError>
    ensures members { IfOk result (λ t. table_view t ≡ config_members config.now) }
    ensures small { OnOk result (IsSmall config.now) }
{
    let processes = process_rows(alloc, &config.processes)?;
    let table = put(alloc, Table::new(alloc), Field::Process, processes)?;
    let mutexes = mutex_rows(alloc, &config.mutexes)?;
    let table = put(alloc, table, Field::Mutex, mutexes)?;
    let levels = level_rows(alloc, &config.levels)?;
    let table = put(alloc, table, Field::Level, levels)?;
    let costs = costs_table(alloc, &config.costs)?;
    let table = put(alloc, table, Field::Costs, Value::Table(costs))?;
    put_number(alloc, table, Field::Version, config.version)
}

/// The text of a table, which reads back as that table.
fn printed(alloc: Global, table: &Table) -> Result<Vec<u8>, NoMemory>
    requires { members_depth (table_view table.now) ≤ 80 }
    ensures { IfOk result (λ v. document v.items ≡ Some (table_view table.now)) }
{
    match toml::table_to_string(alloc, table) {
        Ok(text) => Ok(text.into_bytes()),
        Err(_) => Err(NoMemory),
    }
}

/// A document that stands for the configuration, printed with `toml`. Its length isn't promised.
pub fn write_config(alloc: Global, config: &Config) -> Result<Vec<u8>, NoMemory>
    requires checked { BreaksNoRule config.now }
    requires version { config.now.version ≡ 2 }
    ensures { IfOk result (λ v. reading v.items ≡ Ok config.now) }
{
    let table = config_table(alloc, config)?;
    printed(alloc, &table)
}
