//! Carries out commands of rvgprof on hosts in memory, as files of cases say, which words name. Prints the name of each
//! case, and below it what came where it isn't what the case wants.
//!
//! A file of cases is blocks of lines, with an empty line between them. In all of them `#` begins a comment, a number
//! is written as `12` or `0x1f`, and `BYTES` stands for a name, as `loop`, for its first bytes, as `loop:52`, or for
//! these with the four bytes at some offsets changed, as `loop:52,36=0x5,40=0`.
//!
//! `file NAME` names bytes, which its lines put one behind the other:
//!
//! | Line | Bytes |
//! |---|---|
//! | `bytes N..`, `halves N..`, `words N..` | numbers of 1, 2 and 4 bytes, the lowest byte first; `3*N` is a number three times, and `'seconds` a text |
//! | `zeros N` | so many zeros |
//! | `copy BYTES` | those of another name |
//! | `> TEXT` | a line of text |
//!
//! `read NAME` names the bytes of the file of this name, which stands beside the files of cases.
//!
//! `program NAME` names the file of a program that lies at 0x10000 and begins there. `code N..` are its words, and
//! `function NAME N` is a function at an offset.
//!
//! `case NAME` is a case. Its first lines say what the host is: `files NAME=BYTES..` are its files, `step N` is how many
//! bytes a call moves at most, and `fail N..` are the calls that fail, from 0. Then a line `$ WORDS` is a command; in its
//! words, and behind `front` and `has`, `~` stands for a space; `""` is an empty word. The lines behind it say what is
//! wanted of it. More commands may follow on the same host.
//!
//! | Line | What is wanted |
//! |---|---|
//! | `= N ANSWER` | the exit status, and the answer as Rust writes it |
//! | `status N` | the exit status |
//! | `> TEXT`, `>< BYTES`, `>*` | the output: a line, bytes, or anything. With none of these it is empty |
//! | `! TEXT`, `!< BYTES`, `!*` | the same of the error output |
//! | `front TEXT` | the output begins so |
//! | `has TEXT` | the output has this at the front of a line, but the first; `\n` ends a line |
//! | `fits N` | the output has at most so many lines, of at most 80 columns each |
//! | `left NAME=BYTES..` | what files hold then; `NAME=-`: there is no such file |
//! | `length NAME N`, `part NAME N N..` | the length of a file, and its bytes from an offset on |
//! | `failed KIND`, `failures N` | the first call that failed, or None, and how many did |
//! | `again N` | all of it is the same where a call moves at most so many bytes |
//! | `turns N` | where one call fails: each in turn, until none does (`failing`). The first N calls read the file that word 1 names |
//! | `from N`, `fails N KIND = ANSWER` | the same by kinds: so many calls from one on, of this kind, with this status and answer; `fails N KIND` with those of the case. Behind the last one no call fails |
#![tactic(auto)]

mod cases;
mod contents;
mod failures;

use cases::try_case;
use contents::{put_file, put_program, unreadable};
use host_port::MemHost;
use std::{env, fs, io};

fn main(rt: HostRuntime) -> io::Result<()> {
    let mut files = MemHost::new(rt.alloc());
    for name in env::args(&rt)?.skip(1) {
        try_cases(&rt, &mut files, name.as_str())?;
    }
    Ok(())
}

/// Goes through a file of cases.
fn try_cases(rt: &HostRuntime, files: &mut MemHost, name: &str) -> io::Result<()> {
    let text = fs::read_to_string(rt, name)?;
    for block in text.as_str().split("\n\n") {
        if let Err(e) = try_block(rt, files, block) {
            eprintln!(rt; "{block}")?;
            return Err(e);
        }
    }
    Ok(())
}

/// Names the bytes of a file.
fn read_file(rt: &HostRuntime, files: &mut MemHost, name: &str) -> io::Result<()> {
    let bytes = fs::read(rt, name)?;
    files.put(name, &bytes)?;
    Ok(())
}

/// Names bytes, or tries a case.
fn try_block(rt: &HostRuntime, files: &mut MemHost, block: &str) -> io::Result<()> {
    let (what, rest) = block.split_once(" ").unwrap_or((block, ""));
    let (name, body) = rest.split_once("\n").unwrap_or((rest, ""));
    match what {
        "#" => Ok(()),
        "file" => put_file(rt.alloc(), files, name, body),
        "read" => read_file(rt, files, name),
        "program" => put_program(rt.alloc(), files, name, body),
        "case" => try_case(rt, files, rest),
        _ => Err(unreadable()),
    }
}
