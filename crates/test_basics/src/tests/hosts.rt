ghost use Rattle.std.specs.Prelude.{◌≡◌, false};
ghost use Rattle.host_port.specs.Memory.{outside_of};

use crate::text_of;
use host_port::*;
use std::alloc::{AllocError, Global};
use std::process::Abort;
use std::test::Fail;

const TEN: [u8; 10] = *b"0123456789";

const ELEVEN: [u8; 11] = *b"0123456789a";

#[test]
fn a_file_is_loaded_whole_or_refused(rt: HostRuntime) -> Result<(), Fail> {
    let mut host = MemHost::new(rt.alloc());
    load_or_refuse(&rt, rt.alloc(), &mut host)
}

fn load_or_refuse(rt: &impl Abort, alloc: Global, host: &mut MemHost) -> Result<(), Fail>
    requires { (outside_of host.old).is_writing ≡ false }
{
    host.put("ten", &TEN)?;
    host.put("eleven", &ELEVEN)?;
    assert_eq!(rt; load(alloc, host, "ten", 10)?.as_slice(), TEN.as_slice());
    assert_eq!(rt;
        load(alloc, host, "eleven", 11)?.as_slice(),
        ELEVEN.as_slice()
    );
    let refusal = load(alloc, host, "eleven", 10).err();
    assert_eq!(rt; refusal, Some(LoadRefusal::TooLarge));
    let refusal = load(alloc, host, "missing", 10).err();
    assert_eq!(rt; refusal, Some(LoadRefusal::ReadFault));
    Ok(())
}

#[test]
fn a_host_that_never_fails_is_loaded_from(rt: HostRuntime) -> Result<(), Fail> {
    let mut host = NeverFails::new(rt.alloc());
    host.put("ten", &TEN)?;
    assert_eq!(rt;
        load(rt.alloc(), &mut host, "ten", 10)?.as_slice(),
        TEN.as_slice()
    );
    assert_eq!(rt; load(rt.alloc(), &mut host, "missing", 10)?.len(), 0);
    let written = host
        .create_output("out")
        .and_then(|_| write_all_of(&mut host, b"dropped"));
    assert_eq!(rt; written, Ok(()));
    assert_eq!(rt; host.close_output(), Ok(()));
    assert_eq!(rt; out_all_of(&mut host, b"dropped"), Ok(()));
    assert_eq!(rt; err_all_of(&mut host, b"dropped"), Ok(()));
    Ok(())
}

#[test]
fn a_host_in_memory_keeps_what_is_written(rt: HostRuntime) -> Result<(), Fail> {
    let mut host = MemHost::new(rt.alloc());
    write_and_print(&mut host)?;
    expect_written(&rt, &host);
    Ok(())
}

fn write_and_print(host: &mut MemHost) -> Result<(), Fail>
    requires { (outside_of host.old).is_writing ≡ false }
{
    host.put("out", b"old")?;
    host.create_output("out").map_err(|_| "create")?;
    write_all_of(host, b"ab").map_err(|_| "write")?;
    write_all_of(host, b"").map_err(|_| "write nothing")?;
    write_all_of(host, b"c").map_err(|_| "write more")?;
    host.close_output().map_err(|_| "close")?;
    out_all_of(host, b"printed").map_err(|_| "out")?;
    err_all_of(host, b"complained").map_err(|_| "err")?;
    Ok(())
}

fn expect_written(rt: &impl Abort, host: &MemHost) {
    assert_eq!(rt; host.file("out"), Some(b"abc".as_slice()));
    assert_eq!(rt; host.file("none"), None);
    assert_eq!(rt; host.printed(), b"printed".as_slice());
    assert_eq!(rt; host.errors(), b"complained".as_slice());
}

#[test]
fn marked_calls_fail(rt: HostRuntime) -> Result<(), Fail> {
    let mut host = MemHost::new(rt.alloc());
    fail_where_marked(&rt, &mut host)
}

fn fail_where_marked(rt: &impl Abort, host: &mut MemHost) -> Result<(), Fail>
    requires { (outside_of host.old).is_writing ≡ false }
{
    host.fail_at(1)?;
    host.fail_at(3)?;
    assert_eq!(rt; out_all_of(host, b"zero"), Ok(()));
    assert_eq!(rt; out_all_of(host, b"one"), Err(Failed));
    assert_eq!(rt; err_all_of(host, b"two"), Ok(()));
    assert_eq!(rt; host.close_output(), Err(Failed));
    assert_eq!(rt; host.printed(), b"zero".as_slice());
    assert_eq!(rt; host.errors(), b"two".as_slice());
    Ok(())
}

/// Puts pieces of a text that have these lengths, and answers how many bytes were left out.
fn put_cut<H: Host>(
    text: &[u8],
    cut: &[usize],
    buffer: &mut PrintBuf,
    host: &mut H,
) -> Result<usize, Failed> {
    let mut rest = text;
    for len in cut {
        let (piece, behind) = rest.split_at((*len).min(rest.len()));
        buffer.put(host, piece)?;
        rest = behind;
    }
    Ok(rest.len())
}

/// Lengths of pieces, and how many bytes are printed before they are flushed.
const CUTS: [(&[usize], usize); 7] = [
    (&[1], 0),
    (&[4_095], 0),
    (&[4_096], 0),
    (&[4_097], 4_097),
    (&[0], 0),
    (&[4_000, 96], 0),
    (&[4_000, 97, 5_000, 0, 90_000], 99_097),
];

#[test]
fn bytes_are_printed_in_order_through_a_buffer(rt: HostRuntime) -> Result<(), Fail> {
    let text = text_of(rt.alloc(), 100_000)?;
    for (cut, gone) in &CUTS {
        let mut host = MemHost::new(rt.alloc());
        let (before, left) = print_cut(text.as_slice(), cut, &mut host).map_err(|_| "print")?;
        let printed = host.printed();
        assert_eq!(rt; before, *gone, "printed before the flush of {cut:?}");
        assert_eq!(rt;
            printed.len().checked_add(left),
            Some(text.len()),
            "length of {cut:?}"
        );
        assert!(rt; text.as_slice().starts_with(printed), "bytes of {cut:?}");
    }
    Ok(())
}

/// Prints pieces of a text that have these lengths, and answers how many bytes were printed before they were flushed,
/// and how many were left out.
fn print_cut(text: &[u8], cut: &[usize], host: &mut MemHost) -> Result<(usize, usize), Failed> {
    let mut buffer = PrintBuf::new();
    let left = put_cut(text, cut, &mut buffer, host)?;
    let before = host.printed().len();
    buffer.flush(host)?;
    Ok((before, left))
}

#[test]
fn a_file_is_written_through_a_buffer(rt: HostRuntime) -> Result<(), Fail> {
    let mut host = MemHost::new(rt.alloc());
    let mut buffer = OutBuf::new();
    host.create_output("out").map_err(|_| "create")?;
    buffer.put(&mut host, b"ab").map_err(|_| "put")?;
    buffer.put(&mut host, b"c").map_err(|_| "put more")?;
    buffer.flush(&mut host).map_err(|_| "flush")?;
    assert_eq!(rt; host.file("out"), Some(b"abc".as_slice()));
    Ok(())
}

/// Puts a text in pieces of 100 bytes, and flushes.
fn put_in_pieces<H: Host>(text: &[u8], buffer: &mut PrintBuf, host: &mut H) -> Result<(), Failed> {
    for piece in text.chunks(100) {
        buffer.put(host, piece)?;
    }
    buffer.flush(host)
}

/// What is left where a call fails: whether all was put and how many bytes were printed, whether they are the first of
/// the text, and whether one more flush does nothing.
fn put_where_fails(
    alloc: Global,
    text: &[u8],
    call: u64,
) -> Result<(bool, usize, bool, bool), AllocError> {
    let mut host = MemHost::new(alloc);
    host.fail_at(call)?;
    let mut buffer = PrintBuf::new();
    let is_put = put_in_pieces(text, &mut buffer, &mut host).is_ok();
    let printed = host.printed().len();
    let is_prefix = text.starts_with(host.printed());
    let is_done = buffer.flush(&mut host).is_ok() && host.printed().len() == printed;
    Ok((is_put, printed, is_prefix, is_done))
}

#[test]
fn a_failed_call_leaves_a_prefix_and_nothing_pending(rt: HostRuntime) -> Result<(), Fail> {
    let text = text_of(rt.alloc(), 12_000)?;
    Ok(expect_prefixes(&rt, rt.alloc(), text.as_slice())?)
}

fn expect_prefixes(rt: &impl Abort, alloc: Global, text: &[u8]) -> Result<(), AllocError> {
    for call in 0..4 {
        let (is_put, printed, is_prefix, is_done) = put_where_fails(alloc, text, call)?;
        assert_eq!(rt; is_put, call == 3, "call {call} fails, of three");
        assert_eq!(rt;
            printed < text.len(),
            call < 3,
            "printed before call {call}"
        );
        assert!(rt; is_prefix, "a prefix before call {call}");
        assert!(rt; is_done, "nothing is pending after call {call}");
    }
    Ok(())
}

#[test]
fn a_host_in_memory_moves_at_most_its_step(rt: HostRuntime) -> Result<(), Fail> {
    let mut host = MemHost::new(rt.alloc());
    move_in_steps(&rt, rt.alloc(), &mut host)
}

fn move_in_steps(rt: &impl Abort, alloc: Global, host: &mut MemHost) -> Result<(), Fail>
    requires { (outside_of host.old).is_writing ≡ false }
{
    host.put("ten", &TEN)?;
    host.set_step(3);

    // One call opens the file, five read it, and three print eight bytes.
    assert_eq!(rt; load(alloc, host, "ten", 10)?.as_slice(), TEN.as_slice());
    host.fail_at(9)?;
    host.fail_at(10)?;
    assert_eq!(rt; out_all_of(host, b"abcdefgh"), Ok(()));
    assert_eq!(rt; host.printed(), b"abcdefgh".as_slice());
    assert_eq!(rt; host.first_failed(), None);
    assert_eq!(rt; err_all_of(host, b"x"), Err(Failed));
    assert_eq!(rt; host.close_output(), Err(Failed));
    assert_eq!(rt; host.first_failed(), Some(HostCall::ErrOut));
    assert_eq!(rt; host.failures(), 2);
    Ok(())
}
