//! Commands where a call on the host fails.

use crate::cases::{Command, carry_out, kind_of, mark_call, push_marked, set_up};
use crate::contents::number;
use host_port::{HostCall, MemHost};
use std::alloc::Global;
use std::io;
use std::io::Write;

/// How many calls a command makes at most where each fails in turn.
const CALLS: u64 = 40;

/// The status and the answer that a command's lines want.
fn own_answer<'a>(command: &Command<'a>) -> &'a str {
    for line in command.wanted.lines() {
        if let Some(answer) = line.strip_prefix("= ") {
            return answer;
        }
    }
    ""
}

/// The status and the answer that are wanted where a call of this kind was the first that failed. Nothing is printed
/// on the error output but the last line, and the first calls read the file that word 1 names.
fn wanted_answer<'a>(own: &'a str, failed: Option<HostCall>, is_first_file: bool) -> &'a str {
    match failed {
        None | Some(HostCall::ErrOut) => own,
        Some(HostCall::OpenInput | HostCall::Read) if is_first_file =>
            "5 Err(ReadFault { word: 1 })",
        Some(HostCall::OpenInput | HostCall::Read) => "5 Err(ReadFault { word: 2 })",
        Some(_) => "6 Err(WriteFault)",
    }
}

/// Carries out a command where each call fails in turn, the last line's too, until none does. The answer is that of the
/// call's kind, and what is printed is a prefix of what is printed where none fails. Of the calls the first ones read
/// the file that word 1 names.
pub fn fail_in_turn(
    rt: &HostRuntime,
    files: &MemHost,
    command: &Command,
    reading: u64,
) -> io::Result<()> {
    for call in 0..CALLS {
        match fails_at(rt, files, command, (call, reading))? {
            None if call > 0 => return Ok(()),
            None => return println!(rt; "  no call"),
            Some(HostCall::ErrOut) => {}
            Some(_) => tells_nothing(rt, files, command, (call, reading))?,
        }
    }
    println!(rt; "  more than {CALLS} calls")
}

/// Carries out a command where a call fails, and tells the kind of the call, if it was made.
fn fails_at(
    rt: &HostRuntime,
    files: &MemHost,
    command: &Command,
    call: (u64, u64),
) -> io::Result<Option<HostCall>> {
    let mut host = MemHost::new(rt.alloc());
    fails_on(rt, files, &mut host, command, call)
}

fn fails_on(
    rt: &HostRuntime,
    files: &MemHost,
    host: &mut MemHost,
    command: &Command,
    (call, reading): (u64, u64),
) -> io::Result<Option<HostCall>> {
    let answer = carry_out_failing(rt.alloc(), files, host, command, call)?;
    let failed = host.first_failed();
    let wanted = wanted_answer(own_answer(command), failed, call < reading);
    expect_failed(rt, files, host, command, (call, answer.as_str(), wanted))?;
    Ok(failed)
}

/// Carries out a command on a new host where a call fails, and tells the status and the answer.
fn carry_out_failing(
    alloc: Global,
    files: &MemHost,
    host: &mut MemHost,
    command: &Command,
    call: u64,
) -> io::Result<String> {
    set_up(alloc, files, host, command.setup)?;
    mark_call(host, call)?;
    let answer = carry_out(alloc, host, command.words)?;
    Ok(answer)
}

/// Looks at the answer and the output where a call failed. Where all was done the output is whole.
fn expect_failed(
    rt: &HostRuntime,
    files: &MemHost,
    host: &MemHost,
    command: &Command,
    (call, answer, wanted): (u64, &str, &str),
) -> io::Result<()> {
    let mut whole = Vec::new(rt.alloc());
    push_marked(&mut whole, files, command.wanted, ">")?;
    let out = host.printed();
    let is_whole = out.len() == whole.len() || !wanted.starts_with("0 ");
    if answer != wanted || !is_whole || !whole.starts_with(out) {
        print_failed(rt, host, call, answer)?;
    }
    Ok(())
}

fn print_failed(rt: &HostRuntime, host: &MemHost, call: u64, answer: &str) -> io::Result<()> {
    let kind = kind_of(host);
    println!(rt; "  call {call}, {kind}: {answer}")?;
    rt.stdout().write_all(host.printed())?;
    println!(rt; "")
}

/// Where the call that tells of the failed one fails too, the answer is the same, and nothing is told.
fn tells_nothing(
    rt: &HostRuntime,
    files: &MemHost,
    command: &Command,
    call: (u64, u64),
) -> io::Result<()> {
    let mut host = MemHost::new(rt.alloc());
    tells_nothing_on(rt, files, &mut host, command, call)
}

fn tells_nothing_on(
    rt: &HostRuntime,
    files: &MemHost,
    host: &mut MemHost,
    command: &Command,
    (call, reading): (u64, u64),
) -> io::Result<()> {
    mark_call(host, call.saturating_add(1))?;
    fails_on(rt, files, host, command, (call, reading))?;
    if host.failures() != 2 || !host.errors().is_empty() {
        println!(rt;
            "  call {call} and the next one: {} failures",
            host.failures()
        )?;
    }
    Ok(())
}

/// Lets calls of a command fail, so many of each kind in their order, as its lines say, and no others.
pub fn fail_by_kinds(rt: &HostRuntime, files: &MemHost, command: &Command) -> io::Result<()> {
    let mut call = 0;
    for line in command.wanted.lines() {
        let (what, rest) = line.split_once(" ").unwrap_or((line, ""));
        match what {
            "from" => call = number(rest)?.into(),
            "fails" => call = fail_group(rt, files, command, rest, call)?,
            _ => {}
        }
    }
    if call > 0 {
        fails_as(rt, files, command, call, ("None", own_answer(command)))?;
    }
    Ok(())
}

/// Lets calls of one kind fail, each in turn from one on, and tells the number of the call behind them.
fn fail_group(
    rt: &HostRuntime,
    files: &MemHost,
    command: &Command,
    group: &str,
    first: u64,
) -> io::Result<u64> {
    let (calls, kind) = group.split_once(" ").unwrap_or((group, ""));
    let wanted = kind
        .split_once(" = ")
        .unwrap_or((kind, own_answer(command)));
    let end = first.saturating_add(number(calls)?.into());
    for call in first..end {
        fails_as(rt, files, command, call, wanted)?;
    }
    Ok(end)
}

/// Carries out a command where a call of this kind fails, with this answer.
fn fails_as(
    rt: &HostRuntime,
    files: &MemHost,
    command: &Command,
    call: u64,
    wanted: (&str, &str),
) -> io::Result<()> {
    let mut host = MemHost::new(rt.alloc());
    fails_as_on(rt, files, &mut host, command, call, wanted)
}

fn fails_as_on(
    rt: &HostRuntime,
    files: &MemHost,
    host: &mut MemHost,
    command: &Command,
    call: u64,
    (kind, wanted): (&str, &str),
) -> io::Result<()> {
    let answer = carry_out_failing(rt.alloc(), files, host, command, call)?;
    expect_failed(rt, files, host, command, (call, answer.as_str(), wanted))?;
    if kind_of(host) != kind {
        print_failed(rt, host, call, answer.as_str())?;
    }
    Ok(())
}
