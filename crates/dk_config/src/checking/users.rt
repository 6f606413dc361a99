//! The rule of the users of a mutex.
ghost use Rattle.std.specs.Prelude.{option_copied, find, ◌≡◌, ◌^◌, ◌<◌, length};
ghost use Rattle.std.specs.List.{list_any};
ghost use Rattle.std.specs.Str.{bytes_eq};
ghost use Rattle.dk_config.specs.Tests.{first_broken};
ghost use Rattle.dk_config.specs.Rules.{mutex_users, user_tests, is_wrong_user, has_twice};

use crate::checking::{first_fault_in, make_fault};
use crate::text::has_text;
use crate::{Config, ConfigFault, Field, MutexRow, ProcessRow, Section, Text};

/// The first process of this name.
pub fn find_process<'a>(processes: &'a [ProcessRow], name: &str) -> Option<&'a ProcessRow>
    ensures { option_copied result ≡ find (λ p. bytes_eq p.name name.now) processes.now }
{
    processes.iter().find(|p| p.name.as_str() == name)
}

fn is_wrong(processes: &[ProcessRow], ceiling: u32, user: &str) -> bool
    ensures { result ≡ is_wrong_user processes.now ceiling user.now }
{
    match find_process(processes, user) {
        Some(process) => process.level < ceiling,
        None => true,
    }
}

/// Whether one of the users isn't a process, or one of a level faster than the ceiling.
pub fn has_wrong_user(processes: &[ProcessRow], ceiling: u32, users: &[Text]) -> bool
    ensures { result ≡ list_any (is_wrong_user processes.now ceiling) users.now }
{
    users
        .iter()
        .any(|user| is_wrong(processes, ceiling, user.as_str()))
}

/// Whether a text stands twice among the texts.
pub fn has_double(texts: &[Text]) -> bool
    ensures { result ≡ has_twice texts.now }
{
    match texts {
        [] => false,
        [first, rest @ ..] => has_text(rest, first.as_str()) || has_double(rest),
    }
}

fn mutex_user_fault(config: &Config, i: u32, mutex: &MutexRow) -> Option<ConfigFault>
    ensures { result ≡ first_broken (mutex_users config.now.processes i mutex.now) }
{
    let processes = config.processes.as_slice();
    let users = mutex.users.as_slice();
    if users.is_empty() || has_wrong_user(processes, mutex.ceiling, users) || has_double(users) {
        return Some(make_fault(12, Section::Mutex, i, Field::Users));
    }
    None
}

/// Rule 12: users that there are, each once, and none on a level faster than the ceiling.
#[tactic(auto, unfolding(crate::specs::Rules::user_tests))]
pub fn user_fault(config: &Config) -> Option<ConfigFault>
    requires { length config.now.mutexes < 2 ^ 32 }
    ensures { result ≡ first_broken (user_tests config.now.processes config.now.mutexes) }
{
    first_fault_in(config, &config.mutexes, mutex_user_fault)
}
