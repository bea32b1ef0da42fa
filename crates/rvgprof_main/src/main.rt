//! The program: the words of the command line, the system as a host, and the exit status.
#![tactic(auto)]

mod real_folder;

ghost use Rattle.std.specs.Prelude.{◌≡◌, false, map, string_bytes};
ghost use Rattle.std.specs.IoError.{error_kind};
ghost use Rattle.std.specs.Process.{exit_status};
ghost use Rattle.rvgprof_main.specs.Exit.{EndsWith, status_of_answer, status_without_words as status_without};

use host_port::Host;
use real_folder::real_system;
use rvgprof::{Done, Fault, rvgprof};
use std::alloc::Global;
use std::fs::File;
use std::os::fd::AsRawFd;
use std::process::ExitCode;
use std::{env, fs, io};
use system_host::SystemHost;

/// The status where the words can't be had because memory ran out.
const NO_MEMORY: u8 = 7;

/// The status where the words can't be had for another cause, as a word that is no UTF-8.
const NO_WORDS: u8 = 12;

fn main(rt: HostRuntime) -> ExitCode {
    let _held = (held(&rt), held(&rt), held(&rt));
    match words_of(&rt) {
        Ok(words) => {
            let alloc = rt.alloc();
            match real_system(rt) {
                Ok(system) => {
                    let mut host = SystemHost::new(system);
                    let status = carry_out(alloc, words.as_slice(), &mut host);
                    let _folder = host.end().end();
                    status
                }
                Err(_) => ExitCode::from(NO_MEMORY),
            }
        }
        Err(e) => ExitCode::from(status_without_words(&e)),
    }
}

/// Does all that the program does, and ends with the status of the answer.
fn carry_out<H: Host>(alloc: Global, words: &[String], host: &mut H) -> ExitCode
    requires { (H.outside host.old).is_writing ≡ false }
    ensures { EndsWith (map string_bytes words.now) (H.outside host.old)
        (H.outside host.new) (exit_status result) }
{
    let answer = rvgprof(alloc, words, host);
    ExitCode::from(status_of(&answer))
}

/// The exit status of an answer.
fn status_of(answer: &Result<Done, Fault>) -> u8
    ensures { result ≡ status_of_answer answer.now }
{
    match answer {
        Ok(done) => done.status(),
        Err(fault) => fault.status(),
    }
}

/// The words after the program's name.
fn words_of(rt: &HostRuntime) -> io::Result<Vec<String>> {
    let words = env::args(rt)?.skip(1).collect(rt.alloc())?;
    Ok(words)
}

/// The exit status where the words can't be had.
fn status_without_words(e: &io::Error) -> u8
    ensures { result ≡ status_without (error_kind e.now) }
{
    if e.kind() == io::ErrorKind::OutOfMemory {
        NO_MEMORY
    } else {
        NO_WORDS
    }
}

/// Holds a descriptor below 3 that is closed, so that no file that is written gets it: by `/dev/null`, open to
/// be read alone, so that a print on it still fails.
fn held(rt: &HostRuntime) -> Option<File> {
    let file = fs::open(rt, "/dev/null").ok()?;
    if file.as_raw_fd() < 3 {
        Some(file)
    } else {
        None
    }
}
