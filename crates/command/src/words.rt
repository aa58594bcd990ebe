//! The words of the command line.
ghost use Rattle.std.specs.Prelude.{◌≡◌, ◌<◌, ◌≤◌, IfOk, IfSome};
ghost use Rattle.command.specs.Base.{site_among};
ghost use Rattle.command.specs.Words as spec;
ghost use Rattle.command.specs.Words.{texts};
ghost use Rattle.warc_text.specs.Ids.{IsUuid};

use crate::base::site_of_base;
use capture::{Memory, Site};
use itoa::Buffer;
use std::alloc::Global;
use uuid::Uuid;

/// The greatest number of exchanges that a trial may have.
const EXCHANGES: u32 = 20_000;

/// The greatest number of workers.
const WORKERS: u32 = 16;

/// What the words ask for.
#[derive(Clone, Copy)]
pub enum Command {
    /// Say how much the archive holds.
    Check,
    /// Take the captures of a source into an archive of this namespace.
    Follow(Uuid),
    /// Take the captures of a WARC file into an archive of this namespace.
    Import(Uuid),
    /// Serve one connection, with an archive of this namespace.
    Pipe(Uuid),
    /// Serve connections by so many workers, with an archive of this namespace.
    Serve(Uuid, u32),
    /// Store so many exchanges of the load with this number.
    Trial(u32, u64),
    /// Check the bytes of the archive by so many workers.
    Verify(u32),
}

/// What the words ask for, where they ask for something. The base of `follow` and of `serve` isn't looked at.
pub fn command_of(words: &[&str]) -> Option<Command>
    ensures value { result ≡ spec.command_of (texts words.now) }
    ensures uuid { IfSome result (λ command. IfSome (spec.asked_of command) IsUuid) }
    ensures workers { IfSome result (λ command. IfSome (spec.workers_of command) (λ n. (0 < n) × (n ≤ 16))) }
{
    if words.len() == 1 {
        return command_of_one(words[0]);
    }
    if words.len() == 2 {
        return command_of_two(words[0], words[1]);
    }
    if words.len() == 3 {
        return command_of_three(words[0], words[1], words[2]);
    }
    if words.len() != 4 {
        return None;
    }
    command_of_four(words[0], words[1], words[3])
}

/// The command of one word: `check`.
fn command_of_one(name: &str) -> Option<Command>
    ensures value { result ≡ spec.command_of_one name.now }
    ensures uuid { IfSome result (λ command. IfSome (spec.asked_of command) IsUuid) }
    ensures workers { IfSome result (λ command. IfSome (spec.workers_of command) (λ n. (0 < n) × (n ≤ 16))) }
{
    if name == "check" {
        return Some(Command::Check);
    }
    None
}

/// The command of two words: `pipe` or `import` and a namespace, or `verify` and how many workers.
fn command_of_two(name: &str, second: &str) -> Option<Command>
    ensures value { result ≡ spec.command_of_two name.now second.now }
    ensures uuid { IfSome result (λ command. IfSome (spec.asked_of command) IsUuid) }
    ensures workers { IfSome result (λ command. IfSome (spec.workers_of command) (λ n. (0 < n) × (n ≤ 16))) }
{
    if name == "pipe" {
        return match namespace_of(second) {
            Some(namespace) => Some(Command::Pipe(namespace)),
            None => None,
        };
    }
    if name == "import" {
        return match namespace_of(second) {
            Some(namespace) => Some(Command::Import(namespace)),
            None => None,
        };
    }
    if name != "verify" {
        return None;
    }
    match count_of(second, WORKERS) {
        Some(workers) => Some(Command::Verify(workers)),
        None => None,
    }
}

/// The command of three words: `follow`, a namespace and a base, or `trial`, how many exchanges and the load's number.
/// Nothing looks at the base.
fn command_of_three(name: &str, first: &str, second: &str) -> Option<Command>
    ensures value { result ≡ spec.command_of_three name.now first.now second.now }
    ensures uuid { IfSome result (λ command. IfSome (spec.asked_of command) IsUuid) }
    ensures workers { IfSome result (λ command. IfSome (spec.workers_of command) (λ n. (0 < n) × (n ≤ 16))) }
{
    if name == "follow" {
        return match namespace_of(first) {
            Some(namespace) => Some(Command::Follow(namespace)),
            None => None,
        };
    }
    if name != "trial" {
        return None;
    }
    match count_of(first, EXCHANGES) {
        Some(count) => match number_of(second, u64::MAX) {
            Some(seed) => Some(Command::Trial(count, seed)),
            None => None,
        },
        None => None,
    }
}

/// The command of four words, but for the third, the base: `serve`, a namespace and how many workers.
fn command_of_four(name: &str, namespace: &str, workers: &str) -> Option<Command>
    ensures value { result ≡ spec.command_of_four name.now namespace.now workers.now }
    ensures uuid { IfSome result (λ command. IfSome (spec.asked_of command) IsUuid) }
    ensures workers { IfSome result (λ command. IfSome (spec.workers_of command) (λ n. (0 < n) × (n ≤ 16))) }
{
    if name != "serve" {
        return None;
    }
    match namespace_of(namespace) {
        Some(namespace) => match count_of(workers, WORKERS) {
            Some(workers) => Some(Command::Serve(namespace, workers)),
            None => None,
        },
        None => None,
    }
}

/// The namespace in which a command opens the archive, if it names one.
pub fn asked_of(command: Command) -> Option<Uuid>
    ensures { result ≡ spec.asked_of command }
{
    match command {
        Command::Check => None,
        Command::Follow(namespace) => Some(namespace),
        Command::Import(namespace) => Some(namespace),
        Command::Pipe(namespace) => Some(namespace),
        Command::Serve(namespace, _) => Some(namespace),
        Command::Trial(_, _) => None,
        Command::Verify(_) => None,
    }
}

/// Whether the one client is at the standard streams: where the first word is `pipe`.
pub fn is_pipe(words: &[&str]) -> bool
    ensures { result ≡ spec.is_pipe (texts words.now) }
{
    match words.first() {
        Some(word) => *word == "pipe",
        None => false,
    }
}

/// Whether the one client is at the standard streams and the program prints on standard output: where the first word is `import`.
pub fn is_import(words: &[&str]) -> bool
    ensures { result ≡ spec.is_import (texts words.now) }
{
    match words.first() {
        Some(word) => *word == "import",
        None => false,
    }
}

/// The site of a server or a source: that of the third word, where there is one and it is a base.
pub fn site_of(alloc: Global, words: &[&str]) -> Result<Option<Site>, Memory>
    ensures { IfOk result (λ site. site ≡ site_among (texts words.now)) }
{
    match words.get(2) {
        Some(base) => site_of_base(alloc, base),
        None => Ok(None),
    }
}

/// The UUID that is written so in lower case with hyphens (RFC 9562, section 4).
fn namespace_of(text: &str) -> Option<Uuid>
    ensures value { result ≡ spec.namespace_of text.now }
    ensures uuid { IfSome result IsUuid }
{
    match Uuid::parse_str(text) {
        Ok(namespace) => {
            let mut buffer = [0u8; 36];
            if namespace.hyphenated().encode_lower(&mut buffer) == text {
                Some(namespace)
            } else {
                None
            }
        }
        Err(_) => None,
    }
}

/// How many there are, one or more, as it is written in decimal.
fn count_of(text: &str, most: u32) -> Option<u32>
    ensures value { result ≡ spec.count_of most text.now }
    ensures within { IfSome result (λ count. (0 < count) × (count ≤ most)) }
{
    match number_of(text, u64::from(most)) {
        Some(count) => {
            if count >= 1 {
                return Some(count as u32);
            }
            None
        }
        None => None,
    }
}

/// The number that is written so in decimal, without a sign or leading zeros.
fn number_of(text: &str, most: u64) -> Option<u64>
    ensures value { result ≡ spec.number_of most text.now }
    ensures within { IfSome result (λ number. number ≤ most) }
{
    match text.parse::<u64>() {
        Ok(number) => {
            if number > most {
                return None;
            }
            let mut buffer = Buffer::new();
            if buffer.format(number) == text {
                return Some(number);
            }
            None
        }
        Err(_) => None,
    }
}
