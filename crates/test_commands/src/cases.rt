//! Cases: commands on a host, and what is wanted of each.

use crate::contents::{number, push_content, push_numbers, push_text, put_files, unreadable};
use crate::failures::{fail_by_kinds, fail_in_turn};
use host_port::{Host, HostCall, MemHost};
use rvgprof::{Done, Fault, rvgprof};
use std::alloc::{AllocError, Global};
use std::io;
use std::io::Write;

/// A command of a case.
#[derive(Clone, Copy)]
pub struct Command<'a> {
    /// The lines that say what the host is.
    pub setup: &'a str,
    pub words: &'a str,
    /// The lines that say what is wanted.
    pub wanted: &'a str,
}

/// What came of a command.
#[derive(Clone, Copy)]
struct Came<'a> {
    /// The exit status and the answer, as Rust writes it.
    answer: &'a str,
    out: &'a [u8],
    err: &'a [u8],
    host: &'a MemHost,
}

/// Carries out the commands of a case, one behind the other.
pub fn try_case(rt: &HostRuntime, files: &MemHost, text: &str) -> io::Result<()> {
    let mut host = MemHost::new(rt.alloc());
    try_case_on(rt, files, &mut host, text)
}

fn try_case_on(
    rt: &HostRuntime,
    files: &MemHost,
    host: &mut MemHost,
    text: &str,
) -> io::Result<()> {
    let (front, commands) = text.split_once("\n$").unwrap_or((text, ""));
    let (name, setup) = front.split_once("\n").unwrap_or((front, ""));
    println!(rt; "{name}")?;
    set_up(rt.alloc(), files, host, setup)?;
    for command in commands.split("\n$") {
        let (words, wanted) = command.split_once("\n").unwrap_or((command, ""));
        let command = Command {
            setup,
            words,
            wanted,
        };
        try_command(rt, files, host, &command)?;
        try_repeated(rt, files, &command)?;
    }
    Ok(())
}

/// Makes a host what the lines say.
pub fn set_up(alloc: Global, files: &MemHost, host: &mut MemHost, setup: &str) -> io::Result<()> {
    for line in setup.lines() {
        let (what, rest) = line.split_once(" ").unwrap_or((line, ""));
        match what {
            "#" => {}
            "files" => put_files(alloc, host, files, rest)?,
            "step" => set_step(host, number(rest)?),
            "fail" => mark_calls(host, rest)?,
            _ => return Err(unreadable()),
        }
    }
    Ok(())
}

pub fn set_step(host: &mut MemHost, step: u32) {
    if step > 0 {
        host.set_step(step as usize);
    }
}

fn mark_calls(host: &mut MemHost, calls: &str) -> io::Result<()> {
    for call in calls.split_whitespace() {
        mark_call(host, number(call)?.into())?;
    }
    Ok(())
}

/// Lets a call of the next command fail, by its number from 0. A close comes before it (`carry_out`).
pub fn mark_call(host: &mut MemHost, call: u64) -> Result<(), AllocError> {
    host.fail_at(call.saturating_add(1))
}

/// Carries out a command, and tells the exit status and the answer. The writing that a fault left is ended first.
pub fn carry_out(alloc: Global, host: &mut MemHost, words: &str) -> Result<String, AllocError> {
    let _ = host.close_output();
    let words = words_of(alloc, words)?;
    let answer = rvgprof(alloc, words.as_slice(), host);
    let status = status_of(&answer);
    format!(in alloc; "{status} {answer:?}")
}

fn words_of(alloc: Global, text: &str) -> Result<Vec<String>, AllocError> {
    let mut words = Vec::new(alloc);
    for word in text.split_whitespace() {
        let word = if word == "\"\"" { "" } else { word };
        words.push(spaced(alloc, word)?)?;
    }
    Ok(words)
}

/// A text with a space in place of each `~`.
fn spaced(alloc: Global, text: &str) -> Result<String, AllocError> {
    text.replace(alloc, "~", " ")
}

fn status_of(answer: &Result<Done, Fault>) -> u8 {
    match answer {
        Ok(done) => done.status(),
        Err(fault) => fault.status(),
    }
}

/// Carries out a command, and looks at all that is wanted of it.
fn try_command(
    rt: &HostRuntime,
    files: &MemHost,
    host: &mut MemHost,
    command: &Command,
) -> io::Result<()> {
    let (out, err) = (host.printed().len(), host.errors().len());
    let answer = carry_out(rt.alloc(), host, command.words)?;
    let came = Came {
        answer: answer.as_str(),
        out: host.printed().get(out..).unwrap_or_default(),
        err: host.errors().get(err..).unwrap_or_default(),
        host,
    };
    expect_all(rt, files, command.wanted, &came)
}

fn expect_all(rt: &HostRuntime, files: &MemHost, wanted: &str, came: &Came) -> io::Result<()> {
    expect_text(rt, files, wanted, ">", came.out)?;
    expect_text(rt, files, wanted, "!", came.err)?;
    for line in wanted.lines() {
        expect_line(rt, files, came, line)?;
    }
    Ok(())
}

/// Looks at what was printed: the text of the lines with this mark.
fn expect_text(
    rt: &HostRuntime,
    files: &MemHost,
    wanted: &str,
    mark: &str,
    came: &[u8],
) -> io::Result<()> {
    let mut text = Vec::new(rt.alloc());
    if push_marked(&mut text, files, wanted, mark)? {
        expect(rt, mark, came, &text)?;
    }
    Ok(())
}

/// Puts the text of the lines with a mark behind others, and tells whether it is looked at.
pub fn push_marked(
    text: &mut Vec<u8>,
    files: &MemHost,
    wanted: &str,
    mark: &str,
) -> io::Result<bool> {
    let mut is_wanted = true;
    for line in wanted.lines() {
        if let Some(rest) = line.strip_prefix(mark) {
            is_wanted = is_wanted && rest != "*";
            push_wanted(text, files, rest)?;
        }
    }
    Ok(is_wanted)
}

fn push_wanted(text: &mut Vec<u8>, files: &MemHost, line: &str) -> io::Result<()> {
    match line.strip_prefix("< ") {
        Some(name) => push_content(text, files, name),
        None => push_text(text, line.strip_prefix(" ").unwrap_or(line)),
    }
}

/// Prints what came, if it isn't what is wanted.
pub fn expect(rt: &HostRuntime, what: &str, came: &[u8], wanted: &[u8]) -> io::Result<()> {
    if came == wanted {
        return Ok(());
    }
    println!(rt; "  {what}:")?;
    rt.stdout().write_all(came)?;
    println!(rt; "")
}

/// Looks at what one line wants.
fn expect_line(rt: &HostRuntime, files: &MemHost, came: &Came, line: &str) -> io::Result<()> {
    let (what, rest) = line.split_once(" ").unwrap_or((line, ""));
    match what {
        "=" => expect(rt, line, came.answer.as_bytes(), rest.as_bytes()),
        "status" => expect(rt, line, status_in(came.answer).as_bytes(), rest.as_bytes()),
        "failed" => expect(rt, line, kind_of(came.host).as_bytes(), rest.as_bytes()),
        "failures" => expect_number(rt, line, came.host.failures(), rest),
        "front" => expect_front(rt, came.out, rest),
        "left" => expect_files(rt, files, came.host, rest),
        "length" | "part" => expect_part(rt, came.host, what, rest),
        "has" => expect_within(rt, came.out, rest),
        "fits" => expect_fitting(rt, came.out, number(rest)?),
        "#" | ">" | "><" | ">*" | "!" | "!<" | "!*" | "again" | "turns" | "from" | "fails" => Ok(
            (),
        ),
        _ => Err(unreadable()),
    }
}

fn status_in(answer: &str) -> &str {
    answer.split_once(" ").unwrap_or((answer, "")).0
}

fn front_of(bytes: &[u8], len: usize) -> &[u8] {
    bytes.get(..len).unwrap_or(bytes)
}

/// The kind of the first call that failed.
pub fn kind_of(host: &MemHost) -> &'static str {
    match host.first_failed() {
        None => "None",
        Some(HostCall::OpenInput) => "OpenInput",
        Some(HostCall::Read) => "Read",
        Some(HostCall::CreateOutput) => "CreateOutput",
        Some(HostCall::Write) => "Write",
        Some(HostCall::CloseOutput) => "CloseOutput",
        Some(HostCall::Out) => "Out",
        Some(HostCall::ErrOut) => "ErrOut",
    }
}

fn expect_number(rt: &HostRuntime, what: &str, came: u64, wanted: &str) -> io::Result<()> {
    if came != u64::from(number(wanted)?) {
        println!(rt; "  {what}: {came}")?;
    }
    Ok(())
}

/// Looks at files, as `s=sum g=-` says.
fn expect_files(rt: &HostRuntime, files: &MemHost, host: &MemHost, texts: &str) -> io::Result<()> {
    for text in texts.split_whitespace() {
        let (name, wanted) = text.split_once("=").unwrap_or((text, ""));
        match host.file(name) {
            Some(file) => expect_file(rt, files, text, file, wanted)?,
            None if wanted == "-" => {}
            None => println!(rt; "  no {text}")?,
        }
    }
    Ok(())
}

fn expect_file(
    rt: &HostRuntime,
    files: &MemHost,
    what: &str,
    file: &[u8],
    wanted: &str,
) -> io::Result<()> {
    let mut bytes = Vec::new(rt.alloc());
    if wanted == "-" {
        return println!(rt; "  {what}");
    }
    push_content(&mut bytes, files, wanted)?;
    expect(rt, what, file, &bytes)
}

/// Looks at the length of a file, or at its bytes from an offset on.
fn expect_part(rt: &HostRuntime, host: &MemHost, what: &str, text: &str) -> io::Result<()> {
    let (name, rest) = text.split_once(" ").unwrap_or((text, ""));
    let file = host.file(name).unwrap_or_default();
    match what {
        "length" => expect_number(rt, text, file.len() as u64, rest),
        _ => expect_bytes(rt, file, rest),
    }
}

fn expect_bytes(rt: &HostRuntime, file: &[u8], text: &str) -> io::Result<()> {
    let (at, numbers) = text.split_once(" ").unwrap_or((text, ""));
    let rest = file.get(number(at)? as usize..).unwrap_or_default();
    let mut bytes = Vec::new(rt.alloc());
    push_numbers(&mut bytes, numbers, 1)?;
    expect(rt, text, front_of(rest, bytes.len()), &bytes)
}

fn expect_front(rt: &HostRuntime, out: &[u8], wanted: &str) -> io::Result<()> {
    let wanted = spaced(rt.alloc(), wanted)?;
    expect(rt, "front", front_of(out, wanted.len()), wanted.as_bytes())
}

/// Looks for a text at the front of a line.
fn expect_within(rt: &HostRuntime, out: &[u8], wanted: &str) -> io::Result<()> {
    let text = str::from_utf8(out).unwrap_or_default();
    let line = line_of(rt.alloc(), wanted)?;
    if text.find(line.as_str()).is_none() {
        println!(rt; "  nowhere: {line}")?;
    }
    Ok(())
}

/// A text with an end of a line before it, and for each `\n` in it.
fn line_of(alloc: Global, text: &str) -> Result<String, AllocError> {
    let text = spaced(alloc, text)?;
    let text = text.as_str().replace(alloc, "\\n", "\n")?;
    format!(in alloc; "\n{text}")
}

/// Looks at a text of at most so many lines, each of at most 80 columns and with an end.
fn expect_fitting(rt: &HostRuntime, out: &[u8], most: u32) -> io::Result<()> {
    let text = str::from_utf8(out).unwrap_or_default();
    let is_narrow = text.lines().all(|line| line.len() <= 80);
    if !is_narrow || text.lines().count() > most as usize || !text.ends_with("\n") {
        println!(rt; "  doesn't fit {most} lines")?;
    }
    Ok(())
}

/// Carries out a command again, on hosts of their own, where lines want it.
fn try_repeated(rt: &HostRuntime, files: &MemHost, command: &Command) -> io::Result<()> {
    for line in command.wanted.lines() {
        let (what, rest) = line.split_once(" ").unwrap_or((line, ""));
        match what {
            "again" => try_again(rt, files, command, number(rest)?)?,
            "turns" => fail_in_turn(rt, files, command, number(rest)?.into())?,
            _ => {}
        }
    }
    fail_by_kinds(rt, files, command)
}

/// Carries out a command where each call moves at most so many bytes.
fn try_again(rt: &HostRuntime, files: &MemHost, command: &Command, step: u32) -> io::Result<()> {
    let mut host = MemHost::new(rt.alloc());
    set_step(&mut host, step);
    try_again_on(rt, files, &mut host, command)
}

fn try_again_on(
    rt: &HostRuntime,
    files: &MemHost,
    host: &mut MemHost,
    command: &Command,
) -> io::Result<()> {
    set_up(rt.alloc(), files, host, command.setup)?;
    try_command(rt, files, host, command)
}
