//! Which mutex keeps a level waiting longest, and who holds it.
ghost use Rattle.std.specs.Prelude.{◌≡◌, ◌==◌, ◌&&◌, find, option_copied};
ghost use Rattle.dk_config.specs.Certification.{can_block};
ghost use Rattle.dk_config.specs.Mutex.{Mutex};
ghost use Rattle.show_layout.specs.Certificate.{is_longest, is_slower_user, user_name};

use crate::takes::blocking_of;
use dk_certify::can_delay;
use dk_config::{Config, Layout, MutexRow, ProcessRow};

fn is_slower_user(level: u32, mutex: &MutexRow, process: &ProcessRow) -> bool
    ensures { result ≡ is_slower_user level mutex.now process.now }
{
    mutex.is_used_by(process)
        && (process.level > level || (process.threads > 0 && process.max_level > level))
}

fn first_user<'a>(
    processes: &'a [ProcessRow],
    level: u32,
    mutex: &MutexRow,
) -> Option<&'a ProcessRow>
    ensures { option_copied result ≡ find (is_slower_user level mutex.now) processes.now }
{
    processes
        .iter()
        .find(|process| is_slower_user(level, mutex, process))
}

/// The name of the first user that can hold the mutex while the level waits.
pub(crate) fn user_name<'a>(layout: &'a Layout, level: u32, mutex: &MutexRow) -> &'a str
    ensures { result.now ≡ user_name layout.now level mutex.now }
{
    match first_user(layout.config().processes.as_slice(), level, mutex) {
        Some(process) => process.name.as_str(),
        None => "",
    }
}

fn is_longest(config: &Config, level: u32, longest: u32, mutex: &MutexRow) -> bool
    ensures { result ≡ (can_block config.now level mutex.now && mutex.now.hold == longest) }
{
    can_delay(config, level, mutex) && mutex.hold == longest
}

fn first_longest<'a>(config: &'a Config, level: u32, longest: u32) -> Option<&'a MutexRow>
    ensures { option_copied result
        ≡ find (λ (mutex : Mutex). can_block config.now level mutex && mutex.hold == longest) config.now.mutexes }
{
    config
        .mutexes
        .iter()
        .find(|mutex| is_longest(config, level, longest, mutex))
}

/// The first mutex of those that keep the level waiting longest.
pub(crate) fn longest<'a>(layout: &'a Layout, level: u32) -> Option<&'a MutexRow>
    ensures { option_copied result ≡ find (is_longest layout.now level) layout.now.mutexes }
{
    first_longest(layout.config(), level, blocking_of(layout, level))
}
