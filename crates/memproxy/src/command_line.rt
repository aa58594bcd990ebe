//! The words of the command line.
ghost use Rattle.std.specs.Prelude.{◌≡◌, IfOk, map, string_bytes};
ghost use Rattle.memproxy.specs.Locks as spec;
ghost use Rattle.memproxy.specs.Streams as streams;
ghost use Rattle.memproxy.specs.Streams.{prints_on_error};
ghost use Rattle.real_outside.specs.Sinks.{is_error};

use capture::Memory;
use command::{is_import, is_pipe, site_of};
use folder_model::Lock;
use real_outside::{Ends, RealSink, StandardStreams};
use std::alloc::Global;
use std::env;
use std::io::ErrorKind;
use std::rt::Env;

/// The words behind the program's name. Words that aren't UTF-8 or can't be read are no words, which no form of
/// the command line has.
pub(crate) fn words_of<R: Env + AllocGlobal>(rt: &R) -> Result<Vec<String>, Memory> {
    match env::args(rt) {
        Ok(arguments) => Ok(arguments.skip(1).collect(rt.alloc())?),
        Err(error) => {
            if error.kind() == ErrorKind::OutOfMemory {
                Err(Memory)
            } else {
                Ok(Vec::new(rt.alloc()))
            }
        }
    }
}

/// The same words, lent.
pub(crate) fn texts_of(alloc: Global, words: &[String]) -> Result<Vec<&str>, Memory>
    ensures { IfOk result (λ texts. map (λ text. text.now) texts.items ≡ map string_bytes words.now) }
{
    let mut texts = Vec::new(alloc);
    for word in words {
        texts.push(word.as_str())?;
    }
    Ok(texts)
}

/// Where the words have the program meet its clients and its origins.
pub(crate) fn ends_of(alloc: Global, words: &[&str]) -> Result<Ends, Memory>
    ensures { IfOk result (λ ends. ends ≡ streams.ends_of (map (λ word. word.now) words.now)) }
{
    if is_pipe(words) {
        return Ok(Ends::Streams);
    }
    if is_import(words) {
        return Ok(Ends::Streams);
    }
    if is_server(words) {
        return Ok(Ends::Network(site_of(alloc, words)?));
    }
    Ok(Ends::Network(None))
}

/// Whether clients come in over the network. The site that `follow` names is its source's.
fn is_server(words: &[&str]) -> bool
    ensures { result ≡ streams.is_server (map (λ word. word.now) words.now) }
{
    match words.first() {
        Some(word) => *word == "serve",
        None => false,
    }
}

/// Where the words have the program print. Beside a client at the standard streams it was made to print on standard error; an import
/// writes nothing to its client, and prints on standard output.
pub(crate) fn out_of<R: StandardStreams>(rt: R, words: &[&str], made: RealSink<R>) -> RealSink<R>
where
    R: Drop,
    ensures { is_error result ≡ prints_on_error (is_error made) (map (λ word. word.now) words.now) }
{
    if is_import(words) {
        return RealSink::Output {
            system: rt,
            faults: 0,
        };
    }
    made
}

/// How the words have the program hold its archive: `check` and `verify` only read it, all else may write.
pub(crate) fn lock_of(words: &[&str]) -> Lock
    ensures { result ≡ spec.lock_of (map (λ word. word.now) words.now) }
{
    match words.first() {
        Some(word) => {
            if *word == "check" {
                return Lock::Shared;
            }
            if *word == "verify" {
                return Lock::Shared;
            }
            Lock::Alone
        }
        None => Lock::Alone,
    }
}
