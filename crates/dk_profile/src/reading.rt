//! What the lines of a profile say.
ghost use Rattle.std.specs.Prelude.{◌≡◌, ◌<◌, ◌≤◌, ◌+◌, ◌++◌, ◌∷◌, [], ◌^◌, codes, length, position, IfOk, IfSome, OnOk};
ghost use Rattle.std.specs.Str.{bytes_eq};
ghost use Rattle.dk_config.specs.Checked.{IsWithinLimits};
ghost use Rattle.dk_config.specs.Mutex.{Mutex};
ghost use Rattle.dk_profile.specs.Reading.{alone, amount, mutex_named, placed, read_line, readings_of, said, step_on, used_mutex};

use crate::numbers::number;
use crate::steps::{Placed, Reading, Step, Why};
use crate::words::line_words;
use crate::{MAX_PROFILE_BYTES, MAX_VALUE, MAX_WORK};
use dk_asm::first_line;
use dk_config::{Config, MutexRow};
use std::alloc::{AllocError, Global};

fn mutex_row_named(rows: &[MutexRow], name: &[u8]) -> Option<usize>
    ensures found { result ≡ position (λ (row : Mutex). bytes_eq row.name name.now) rows.now }
    ensures exists { IfSome result (λ m. m < length rows.now) }
{
    rows.iter()
        .position(|row| row.name.as_str().as_bytes() == name)
}

fn mutex_named(config: &Config, name: &[u8]) -> Option<u32>
    requires { IsWithinLimits config.now }
    ensures found { result ≡ mutex_named config.now name.now }
    ensures few { IfSome result (λ m. m ≤ 16) }
{
    match mutex_row_named(config.mutexes.as_slice(), name) {
        Some(mutex) => Some(mutex as u32),
        None => None,
    }
}

/// The mutex of this name, if the process is among its users.
fn used_mutex(config: &Config, process: u32, name: &[u8]) -> Result<u32, Why>
    requires { IsWithinLimits config.now }
    ensures value { result ≡ used_mutex config.now process name.now }
    ensures few { IfOk result (λ m. m ≤ 16) }
{
    match mutex_named(config, name) {
        Some(mutex) if config.is_user(mutex, process) => Ok(mutex),
        Some(_) => Err(Why::NoUser),
        None => Err(Why::NoMutex),
    }
}

/// The number that the word spells, if it is from low to high, which is at most 1,000,000; else why it isn't.
pub fn amount(low: u32, high: u32, word: &[u8]) -> Result<u32, Why>
    requires { high ≤ 1000000 }
    ensures value { result ≡ amount low high word.now }
    ensures most { IfOk result (λ n. n ≤ high) }
{
    match number(word) {
        Some(n) if low <= n && n <= high => Ok(n),
        Some(_) => Err(Why::Range { low, high }),
        None => Err(Why::NoNumber),
    }
}

fn work(word: &[u8]) -> Reading
    ensures { result ≡ said Step.Work (amount 1 MAX_WORK word.now) }
{
    match amount(1, MAX_WORK, word) {
        Ok(n) => Reading::Does(Step::Work(n)),
        Err(why) => Reading::Wrong(why),
    }
}

fn slack(word: &[u8]) -> Reading
    ensures { result ≡ said Step.Slack (amount 1 MAX_VALUE word.now) }
{
    match amount(1, MAX_VALUE, word) {
        Ok(n) => Reading::Does(Step::Slack(n as u16)),
        Err(why) => Reading::Wrong(why),
    }
}

fn put(word: &[u8]) -> Reading
    ensures { result ≡ said Step.Put (amount 0 MAX_VALUE word.now) }
{
    match amount(0, MAX_VALUE, word) {
        Ok(n) => Reading::Does(Step::Put(n as u16)),
        Err(why) => Reading::Wrong(why),
    }
}

fn lock(config: &Config, process: u32, name: &[u8]) -> Reading
    requires { IsWithinLimits config.now }
    ensures { result ≡ said Step.Lock (used_mutex config.now process name.now) }
{
    match used_mutex(config, process, name) {
        Ok(mutex) => Reading::Does(Step::Lock(mutex as u16)),
        Err(why) => Reading::Wrong(why),
    }
}

fn unlock(config: &Config, process: u32, name: &[u8]) -> Reading
    requires { IsWithinLimits config.now }
    ensures { result ≡ said Step.Unlock (used_mutex config.now process name.now) }
{
    match used_mutex(config, process, name) {
        Ok(mutex) => Reading::Does(Step::Unlock(mutex as u16)),
        Err(why) => Reading::Wrong(why),
    }
}

fn alone(reading: Reading, word: &[u8]) -> Reading
    ensures { result ≡ alone reading word.now }
{
    if word.is_empty() {
        reading
    } else {
        Reading::Wrong(Why::More)
    }
}

fn step_on(config: &Config, process: u32, first: &[u8], word: &[u8]) -> Reading
    requires { IsWithinLimits config.now }
    ensures { result ≡ step_on config.now process first.now word.now }
{
    if first == b"work".as_slice() {
        work(word)
    } else if first == b"lock".as_slice() {
        lock(config, process, word)
    } else if first == b"unlock".as_slice() {
        unlock(config, process, word)
    } else if first == b"slack".as_slice() {
        slack(word)
    } else if first == b"put".as_slice() {
        put(word)
    } else if first == b"wait".as_slice() {
        alone(Reading::Does(Step::Wait), word)
    } else if first == b"job".as_slice() {
        alone(Reading::Job, word)
    } else {
        Reading::Wrong(Why::NoStep)
    }
}

fn read_line(config: &Config, process: u32, line: &[u8]) -> Reading
    requires { IsWithinLimits config.now }
    ensures { result ≡ read_line config.now process line.now }
{
    let words = line_words(line);
    if words.first.is_empty() {
        Reading::Nothing
    } else if words.more.is_empty() {
        step_on(config, process, words.first, words.second)
    } else {
        Reading::Wrong(Why::More)
    }
}

/// What the lines of a text of at most 1,048,576 bytes say to a process of the configuration.
pub fn read_text(
    alloc: Global,
    config: &Config,
    process: u32,
    text: &[u8],
) -> Result<Vec<Placed>, AllocError>
    requires limits { IsWithinLimits config.now }
    requires few { length text.now ≤ MAX_PROFILE_BYTES }
    ensures readings { IfOk result (λ v. v.items ≡ readings_of config.now process text.now) }
    ensures few { IfOk result (λ v. length v.items ≤ MAX_PROFILE_BYTES) }
{
    let mut readings = Vec::new(alloc);
    let mut rest = text;
    let mut line = 1;
    while !rest.is_empty() {
        let (bytes, behind) = first_line(rest);
        let reading = read_line(config, process, bytes);
        readings.push(Placed { line, reading })?;
        rest = behind;
        line += 1;
    }
    Ok(readings)
}
