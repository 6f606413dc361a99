//! What a mutex is allowed and can't use.
ghost use Rattle.std.specs.Prelude.{◌≡◌, ◌<◌, length};
ghost use Rattle.dk_config.specs.Checked.{IsChecked, IsWithinLimits};
ghost use Rattle.dk_config.specs.Windows.{ceiling};
ghost use Rattle.dk_warnings.specs.Found.{fast_ceiling, fastest_of, fastest_user, is_own_mutex, long_hold, own_mutex, user_count};

use crate::holds::{never_fits, room_of};
use crate::processes::slots_of;
use crate::warning::Warning;
use dk_config::{Config, MutexRow, ProcessRow};

/// The least level of these processes that use the mutex, and `none` where none does.
fn fastest_of(mutex: &MutexRow, none: u32, processes: &[ProcessRow]) -> u32
    ensures { result ≡ fastest_of mutex.now none processes.now }
{
    match processes {
        [] => none,
        [first, rest @ ..] => {
            let later = fastest_of(mutex, none, rest);
            if mutex.is_used_by(first) {
                first.level.min(later)
            } else {
                later
            }
        }
    }
}

/// The level of the fastest user.
fn fastest_user(config: &Config, mutex: u32) -> u32
    requires limits { IsWithinLimits config.now }
    ensures { result ≡ fastest_user config.now mutex }
{
    match config.mutexes.get(mutex as usize) {
        Some(row) => fastest_of(row, config.levels.len() as u32, config.processes.as_slice()),
        None => 0,
    }
}

fn ceiling_of(config: &Config, mutex: u32) -> u32
    ensures { result ≡ ceiling config.now mutex }
{
    match config.mutexes.get(mutex as usize) {
        Some(row) => row.ceiling,
        None => 0,
    }
}

pub(crate) fn fast_ceiling(config: &Config, mutex: u32) -> Option<Warning>
    requires limits { IsWithinLimits config.now }
    ensures { result ≡ fast_ceiling config.now mutex }
{
    let level = fastest_user(config, mutex);
    if ceiling_of(config, mutex) < level {
        Some(Warning::FastCeiling { mutex, level })
    } else {
        None
    }
}

fn user_count(config: &Config, mutex: u32) -> usize
    ensures { result ≡ user_count config.now mutex }
{
    match config.mutexes.get(mutex as usize) {
        Some(row) => row.users.len(),
        None => 0,
    }
}

/// Whether the process is the only user of the mutex and may have no children.
fn is_own_mutex(config: &Config, mutex: u32, process: u32) -> bool
    ensures { result ≡ is_own_mutex config.now mutex process }
{
    config.is_user(mutex, process)
        && (user_count(config, mutex) == 1 && slots_of(config, process) == 0)
}

pub(crate) fn own_mutex(config: &Config, mutex: u32, process: u32) -> Option<Warning>
    ensures { result ≡ own_mutex config.now mutex process }
{
    if is_own_mutex(config, mutex, process) {
        Some(Warning::OwnMutex {
            mutex,
            user: process,
        })
    } else {
        None
    }
}

pub(crate) fn long_hold(config: &Config, mutex: u32, process: u32) -> Option<Warning>
    requires checked { IsChecked config.now }
    requires limits { IsWithinLimits config.now }
    requires process { process < length config.now.processes }
    requires mutex { mutex < length config.now.mutexes }
    ensures { result ≡ long_hold config.now mutex process }
{
    if config.is_user(mutex, process) && never_fits(config, process, mutex) {
        Some(Warning::LongHold {
            mutex,
            user: process,
            room: room_of(config, process),
        })
    } else {
        None
    }
}
