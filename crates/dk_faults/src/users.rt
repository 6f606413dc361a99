//! The rule of the users of a mutex.
ghost use Rattle.std.specs.Prelude.{◌≡◌, ◌++◌, ◌||◌, ◌==◌, OnOk, length};
ghost use Rattle.std.specs.List.{list_any};
ghost use Rattle.dk_config.specs.Rules.{mutex_users, user_tests, is_wrong_user, has_twice};
ghost use Rattle.dk_faults.specs.Faults.{HasFewRows, broken, reported};

use crate::collecting::{RowFaults, add_rows, fault_if, one_fault};
use dk_config::{
    Config, ConfigFault, Field, MutexRow, NoMemory, ProcessRow, Section, Text, has_double,
    has_wrong_user,
};

fn has_wrong_users(processes: &[ProcessRow], ceiling: u32, users: &[Text]) -> bool
    ensures { result
        ≡ ((length users.now == 0 || list_any (is_wrong_user processes.now ceiling) users.now) || has_twice users.now) }
{
    users.is_empty() || has_wrong_user(processes, ceiling, users) || has_double(users)
}

#[tactic(auto, using(crate::proofs::Broken::one))]
fn mutex_users(config: &Config, i: u32, mutex: &MutexRow) -> RowFaults
    ensures { reported result ≡ broken (mutex_users config.now.processes i mutex.now) }
{
    let wrong = has_wrong_users(&config.processes, mutex.ceiling, &mutex.users);
    one_fault(fault_if(wrong, 12, Section::Mutex, i, Field::Users))
}

/// Rule 12: the users of each mutex are there, each once, and none is faster than the ceiling.
#[tactic(auto, unfolding(dk_config::specs::Rules::user_tests))]
pub fn add_user_faults(found: &mut Vec<ConfigFault>, config: &Config) -> Result<(), NoMemory>
    requires few { HasFewRows config.now }
    ensures { OnOk result (found.new.items ≡ found.old.items
        ++ broken (user_tests config.now.processes config.now.mutexes)) }
{
    add_rows(found, config, &config.mutexes, mutex_users)
}
