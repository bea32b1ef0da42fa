//! Named bytes: the files of cases, and texts that are wanted.

use gp_base::le4;
use host_port::MemHost;
use std::alloc::Global;
use std::io;
use test_programs::elf_of;

/// The error of a line that can't be read.
pub fn unreadable() -> io::Error {
    io::Error::from(io::ErrorKind::InvalidData)
}

/// A number, as `12` or `0x1f`.
pub fn number(text: &str) -> io::Result<u32> {
    let number = match text.strip_prefix("0x") {
        Some(digits) => u32::from_str_radix(digits, 16),
        None => text.parse(),
    };
    number.map_err(|_| unreadable())
}

/// Names the bytes that the lines of a block say.
pub fn put_file(alloc: Global, files: &mut MemHost, name: &str, body: &str) -> io::Result<()> {
    let mut bytes = Vec::new(alloc);
    push_lines(&mut bytes, files, body)?;
    files.put(name, &bytes)?;
    Ok(())
}

fn push_lines(bytes: &mut Vec<u8>, files: &MemHost, body: &str) -> io::Result<()> {
    for line in body.lines() {
        push_line(bytes, files, line)?;
    }
    Ok(())
}

fn push_line(bytes: &mut Vec<u8>, files: &MemHost, line: &str) -> io::Result<()> {
    let (what, rest) = line.split_once(" ").unwrap_or((line, ""));
    match what {
        "#" => Ok(()),
        "bytes" => push_numbers(bytes, rest, 1),
        "halves" => push_numbers(bytes, rest, 2),
        "words" => push_numbers(bytes, rest, 4),
        "zeros" => push_zeros(bytes, number(rest)?),
        "copy" => push_content(bytes, files, rest),
        ">" => push_text(bytes, rest),
        _ => Err(unreadable()),
    }
}

/// Puts a line of text behind others.
pub fn push_text(bytes: &mut Vec<u8>, line: &str) -> io::Result<()> {
    bytes.extend_from_slice(line.as_bytes())?;
    bytes.push(b'\n')?;
    Ok(())
}

fn push_zeros(bytes: &mut Vec<u8>, count: u32) -> io::Result<()> {
    bytes.resize(bytes.len().saturating_add(count as usize), 0)?;
    Ok(())
}

/// Puts numbers of so many bytes, or texts, behind other bytes.
pub fn push_numbers(bytes: &mut Vec<u8>, numbers: &str, size: usize) -> io::Result<()> {
    for text in numbers.split_whitespace() {
        match text.strip_prefix("'") {
            Some(text) => bytes.extend_from_slice(text.as_bytes())?,
            None => push_number(bytes, text, size)?,
        }
    }
    Ok(())
}

fn push_number(bytes: &mut Vec<u8>, text: &str, size: usize) -> io::Result<()> {
    let (times, number) = repeated(text)?;
    let spelled = le4(number);
    let spelled = spelled.get(..size).unwrap_or_default();
    for _ in 0..times {
        bytes.extend_from_slice(spelled)?;
    }
    Ok(())
}

/// How often a number stands there, and the number, as in `3*0x13`.
fn repeated(text: &str) -> io::Result<(u32, u32)> {
    let (times, text) = text.split_once("*").unwrap_or(("1", text));
    Ok((number(times)?, number(text)?))
}

/// Puts named bytes behind others, all of them or the first ones, as they are or with some words changed.
pub fn push_content(bytes: &mut Vec<u8>, files: &MemHost, text: &str) -> io::Result<()> {
    let (front, changes) = text.split_once(",").unwrap_or((text, ""));
    push_front(bytes, files, front)?;
    for change in changes.split(",") {
        change_word(bytes, change)?;
    }
    Ok(())
}

fn push_front(bytes: &mut Vec<u8>, files: &MemHost, text: &str) -> io::Result<()> {
    let (name, len) = text.split_once(":").unwrap_or((text, "0xffffffff"));
    let len = number(len)? as usize;
    match files.file(name) {
        Some(file) => bytes.extend_from_slice(file.get(..len).unwrap_or(file))?,
        None => return Err(unreadable()),
    }
    Ok(())
}

/// Changes the four bytes at an offset, as `24=0x10002` says, as far as they are there.
fn change_word(bytes: &mut [u8], change: &str) -> io::Result<()> {
    let Some((at, word)) = change.split_once("=") else {
        return Ok(());
    };
    let at = number(at)? as usize;
    for (i, byte) in le4(number(word)?).iter().enumerate() {
        if let Some(old) = bytes.get_mut(at.saturating_add(i)) {
            *old = *byte;
        }
    }
    Ok(())
}

/// Names the file of a program.
pub fn put_program(alloc: Global, files: &mut MemHost, name: &str, body: &str) -> io::Result<()> {
    let words = words_of(alloc, body)?;
    let functions = functions_of(alloc, body)?;
    let file = elf_of(alloc, &words, &functions)?;
    files.put(name, &file)?;
    Ok(())
}

/// The words of the lines of code.
fn words_of(alloc: Global, body: &str) -> io::Result<Vec<u32>> {
    let mut words = Vec::new(alloc);
    for line in body.lines() {
        if let Some(code) = line.strip_prefix("code ") {
            push_code(&mut words, code)?;
        }
    }
    Ok(words)
}

fn push_code(words: &mut Vec<u32>, code: &str) -> io::Result<()> {
    for text in code.split_whitespace() {
        let (times, word) = repeated(text)?;
        for _ in 0..times {
            words.push(word)?;
        }
    }
    Ok(())
}

/// The functions, by their names and offsets.
fn functions_of(alloc: Global, body: &str) -> io::Result<Vec<(&str, u32)>> {
    let mut functions = Vec::new(alloc);
    for line in body.lines() {
        if let Some(function) = line.strip_prefix("function ") {
            let (name, offset) = function.split_once(" ").unwrap_or((function, ""));
            functions.push((name, number(offset)?))?;
        }
    }
    Ok(functions)
}

/// Gives a host files, as `e=loop g=told` says.
pub fn put_files(
    alloc: Global,
    host: &mut MemHost,
    files: &MemHost,
    texts: &str,
) -> io::Result<()> {
    for text in texts.split_whitespace() {
        let (name, text) = text.split_once("=").unwrap_or((text, ""));
        put_content(alloc, host, files, name, text)?;
    }
    Ok(())
}

fn put_content(
    alloc: Global,
    host: &mut MemHost,
    files: &MemHost,
    name: &str,
    text: &str,
) -> io::Result<()> {
    let mut bytes = Vec::new(alloc);
    push_content(&mut bytes, files, text)?;
    host.put(name, &bytes)?;
    Ok(())
}
