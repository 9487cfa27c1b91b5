//! The program `rvuser`: it makes the folder that the words name and the standard streams, runs the program over them, and
//! ends with the status of the answer (`emu_top`).
#![tactic(auto)]

ghost use Rattle.std.specs.Prelude.{◌≡◌, ◌≤◌, ◌∷◌, [], length, IfOk, IfSome};
ghost use Rattle.emu_top.specs.Streams.{descriptors};

#[cfg(test)]
mod folder_tests;
#[cfg(test)]
mod hostile_tests;
#[cfg(test)]
mod tests;

use cli_words::WordsFault;
use dev_board::Devices;
use emu_top::streams::{ErrorSink, Stream, StreamDevice};
use emu_top::top::{refuse_words, solo_top};
use image_store::RealFolder;
use std::alloc::{AllocError, Global};
use std::process::ExitCode;
use std::{env, fs, io};

/// The status of wrong words.
const USAGE: u8 = 64;

/// The status of want of memory.
const MEMORY: u8 = 70;

fn main(rt: HostRuntime) -> ExitCode {
    let status = match words_of(&rt) {
        Ok(words) => status_of(&rt, &words),
        Err(error) => match error.kind() {
            io::ErrorKind::OutOfMemory => MEMORY,
            _ => status_by_bytes(&rt),
        },
    };
    ExitCode::from(status)
}

/// The status of a run of these words.
fn status_of(rt: &HostRuntime, words: &[String]) -> u8 {
    match run(rt, words) {
        Ok(status) => status,
        Err(_) => MEMORY,
    }
}

/// The words of the command line, without the program's own name.
fn words_of(rt: &HostRuntime) -> io::Result<Vec<String>> {
    let mut words = Vec::new(rt.alloc());
    for word in env::args(rt)?.skip(1) {
        words.push(word)?;
    }
    Ok(words)
}

/// The same where one of them isn't UTF-8: the system's own list of this process's words has their bytes. Such a word is a
/// wrong one.
///
/// References: proc(5) (`/proc/pid/cmdline`).
fn status_by_bytes(rt: &HostRuntime) -> u8 {
    let alloc = rt.alloc();
    let bytes = match fs::read(rt, "/proc/self/cmdline") {
        Ok(bytes) => bytes,
        Err(_) => return USAGE,
    };
    match texts_in(alloc, &bytes) {
        Err(_) => MEMORY,
        Ok(Words { texts, all: true }) => status_of(rt, &texts),
        Ok(Words { texts, all: false }) => match first_wrong(alloc, &texts) {
            None => MEMORY,
            Some(word) => {
                let mut notes = ErrorSink::new(rt.stderr());
                refuse_words(alloc, word, &mut notes)
            }
        },
    }
}

/// The words up to the first that isn't a text, and whether these are all.
#[derive(Drop)]
struct Words {
    texts: Vec<String>,
    all: bool,
}

/// The words of a process, each with a zero behind it, without the program's own name.
fn texts_in(alloc: Global, bytes: &[u8]) -> Result<Words, AllocError> {
    let mut texts = Vec::new(alloc);
    for word in bytes.split(|byte| *byte == 0).skip(1) {
        match str::from_utf8(word) {
            Ok(text) => texts.push(String::from_str(alloc, text)?)?,
            Err(_) => return Ok(Words { texts, all: false }),
        }
    }
    // behind the last zero there is no word
    let _ = texts.pop();
    Ok(Words { texts, all: true })
}

/// The index of the first wrong word, where behind these stands one that isn't a text; none for want of memory.
fn first_wrong(alloc: Global, texts: &[String]) -> Option<usize>
    ensures { IfSome result (λ word. word ≤ length texts.now) }
{
    match cli_words::read(alloc, texts) {
        Err(WordsFault::Memory) => None,
        Err(WordsFault::At(word)) => Some(word.min(texts.len())),
        Ok(_) => Some(texts.len()),
    }
}

/// Runs the words over the folder that they name and the standard streams, and gives the status.
fn run(rt: &HostRuntime, words: &[String]) -> Result<u8, AllocError> {
    let alloc = rt.alloc();
    let path = match words.get(1) {
        Some(path) => path.as_str(),
        None => ".",
    };
    let mut folder = RealFolder::new(*rt, String::from_str(alloc, path)?);
    let devices = Devices::new(alloc, devices(rt, alloc)?)?;
    let mut notes = ErrorSink::new(rt.stderr());
    Ok(
        match solo_top(alloc, words, &mut folder, devices, &mut notes) {
            Ok(finished) => finished.status,
            Err(fault) => fault.status(),
        },
    )
}

/// Standard input, output and error, for the descriptors 0, 1 and 2.
fn devices(rt: &HostRuntime, alloc: Global) -> Result<Vec<StreamDevice>, AllocError>
    ensures count { IfOk result (λ devices. length devices.items ≡ 3) }
    ensures streams { IfOk result (λ devices. descriptors devices.items ≡ 0 ∷ 1 ∷ 2 ∷ []) }
{
    let mut devices = Vec::new(alloc);
    devices.push(StreamDevice::new(Stream::Input(rt.stdin())))?;
    devices.push(StreamDevice::new(Stream::Output(rt.stdout())))?;
    devices.push(StreamDevice::new(Stream::Error(rt.stderr())))?;
    Ok(devices)
}
