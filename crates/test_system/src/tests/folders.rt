ghost use Rattle.std.specs.Prelude.{None};

use folder_system::place::begin;
use folder_system::{Attributes, FolderSystem, MemFolder, Place, Printer, Taken};
use std::alloc::{AllocError, Global};
use std::io;
use std::io::{ErrorKind, Write};
use std::process::Abort;
use std::test::Fail;
use system_host::System;

/// What an old file has: the device, the owner and the group of new ones.
const OLD: Attributes = Attributes {
    device: 0,
    inode: 8,
    mode: 0o100644,
    owner: 0,
    group: 0,
    links: 1,
};

/// Prints nowhere.
#[derive(Drop)]
struct Mute;

impl Printer for Mute {
    ghost printed = { λ _. None };

    ghost complained = { λ _. None };

    fn out(&mut self, piece: &[u8]) -> io::Result<usize> {
        Ok(piece.len())
    }

    fn err(&mut self, piece: &[u8]) -> io::Result<usize> {
        Ok(piece.len())
    }
}

/// Outputs "new" of these names, one behind the other, up to one that fails. How many were closed.
fn outputs(alloc: Global, folder: MemFolder, names: &[&str]) -> (MemFolder, usize) {
    let mut system = FolderSystem::new(alloc, folder, Mute);
    let mut closed = 0usize;
    for name in names {
        if output(&mut system, name).is_err() {
            break;
        }
        closed = closed.saturating_add(1);
    }
    let (folder, _printer) = system.end();
    (folder, closed)
}

fn output(system: &mut FolderSystem<MemFolder, Mute>, name: &str) -> io::Result<()> {
    let _input = system.open(name);
    let mut output = system.create(name)?;
    output.write_all(b"new")?;
    system.close(output)
}

/// What is tried: the files that there are and hold "old", the outputs, and how many calls those take.
struct Case<'a> {
    old: &'a [&'a str],
    names: &'a [&'a str],
    calls: u64,
}

/// An output that is new, one over an old file, two that are new, and two over old files. A new one takes
/// seven calls: look, create_new, sync, look, rename, open_folder and sync_names; an old one look_at too, the third.
const CASES: [Case<'static>; 5] = [
    Case {
        old: &[],
        names: &["f"],
        calls: 7,
    },
    Case {
        old: &["f"],
        names: &["f"],
        calls: 8,
    },
    Case {
        old: &["d/f", "g"],
        names: &["d/f"],
        calls: 8,
    },
    Case {
        old: &[],
        names: &["f", "g"],
        calls: 14,
    },
    Case {
        old: &["f", "g"],
        names: &["f", "g"],
        calls: 16,
    },
];

fn folder_of(
    alloc: Global,
    names: &[&str],
    attributes: Attributes,
) -> Result<MemFolder, AllocError> {
    let mut folder = MemFolder::new(alloc);
    for name in names {
        folder.put(name, b"old", attributes)?;
    }
    Ok(folder)
}

/// Looks at the files: so many of the outputs are new, the others are as they were, and there is no other file.
fn expect(rt: &impl Abort, case: &Case<'_>, folder: &MemFolder, new: u64, call: u64) {
    let mut files = case.old.len();
    for (i, name) in case.names.iter().enumerate() {
        let is_old = case.old.contains(name);
        let is_new = (i as u64) < new;
        let bytes: Option<&[u8]> = match (is_new, is_old) {
            (true, _) => Some(b"new"),
            (false, true) => Some(b"old"),
            (false, false) => None,
        };
        assert_eq!(rt; folder.bytes(name), bytes, "{name} at {call}");
        if is_new && !is_old {
            files = files.saturating_add(1);
        }
    }
    assert_eq!(rt; folder.len(), files, "{call}");
}

/// How many outputs are new where this call fails. The last two of an output, open_folder and sync_names, come behind
/// rename, and a folder that can't be opened is no fault. Where a new file can't be looked at, the old one is written in
/// place.
fn new_at(case: &Case<'_>, call: u64) -> u64 {
    let all = case.names.len() as u64;
    let each = (case.calls / all.max(1)).max(1);
    let at = call % each;
    if !case.old.is_empty() && at == 2 || at.saturating_add(2) == each {
        all
    } else {
        call.saturating_add(1) / each
    }
}

#[test]
fn each_call_fails_in_turn(rt: HostRuntime) -> Result<(), Fail> {
    for case in &CASES {
        let all = case.names.len() as u64;
        fail_at(&rt, rt.alloc(), case, (case.calls, case.calls), all)?;
        for call in 0..case.calls {
            let new = new_at(case, call);
            fail_at(&rt, rt.alloc(), case, (call, call.saturating_add(1)), new)?;
        }
    }
    Ok(())
}

/// Calls from one on and before another fail for want of room.
fn fail_at(
    rt: &impl Abort,
    alloc: Global,
    case: &Case<'_>,
    (from, until): (u64, u64),
    new: u64,
) -> Result<(), AllocError> {
    let mut folder = folder_of(alloc, case.old, OLD)?;
    folder.fail(from, until, ErrorKind::StorageFull);
    let (folder, _) = outputs(alloc, folder, case.names);
    expect(rt, case, &folder, new, from);
    Ok(())
}

/// The kinds of errors, and at which of the calls of an output over an old file the output is done all the same.
const KINDS: [(ErrorKind, &[u64]); 5] = [
    (ErrorKind::OutOfMemory, &[2, 6]),
    (ErrorKind::QuotaExceeded, &[2, 6]),
    (ErrorKind::ResourceBusy, &[2, 5, 6]),
    (ErrorKind::PermissionDenied, &[1, 2, 5, 6]),
    (ErrorKind::Unsupported, &[1, 2, 3, 6, 7]),
];

#[test]
fn what_an_error_says_decides(rt: HostRuntime) -> Result<(), Fail> {
    let alloc = rt.alloc();
    for (kind, done) in &KINDS {
        for call in 0..8 {
            let mut folder = folder_of(alloc, &["f"], OLD)?;
            folder.fail(call, call + 1, *kind);
            let (folder, closed) = outputs(alloc, folder, &["f"]);
            let is_done = done.contains(&call);
            assert_eq!(rt; closed, usize::from(is_done), "{kind:?} at {call}");
            let bytes: &[u8] = if is_done || call == 7 { b"new" } else { b"old" };
            assert_eq!(rt; folder.bytes("f"), Some(bytes), "{kind:?} at {call}");
            assert_eq!(rt; folder.len(), 1, "{kind:?} at {call}");
        }
    }
    Ok(())
}

#[test]
fn each_call_at_a_held_name_fails_in_turn(rt: HostRuntime) -> Result<(), Fail> {
    let alloc = rt.alloc();
    for call in 0..11 {
        let mut folder = folder_of(alloc, &["f"], OLD)?;
        folder.hold(ErrorKind::ResourceBusy);
        folder.fail(call, call + 1, ErrorKind::StorageFull);
        let (folder, closed) = outputs(alloc, folder, &["f"]);
        // Behind the rename, the sixth, come open_over, copy, sync and remove.
        let (bytes, done, files): (&[u8], bool, usize) = match call {
            2 => (b"new", true, 1),
            0..7 => (b"old", false, 1),
            7 | 8 => (b"", false, 1),
            9 => (b"new", true, 2),
            _ => (b"new", true, 1),
        };
        assert_eq!(rt; closed, usize::from(done), "{call}");
        assert_eq!(rt; folder.bytes("f"), Some(bytes), "{call}");
        assert_eq!(rt; folder.len(), files, "{call}");
    }
    Ok(())
}

#[test]
fn what_stands_there_decides(rt: HostRuntime) -> Result<(), Fail> {
    let alloc = rt.alloc();
    let mode = 0o104755;
    let locked = 0o100440;
    // Look, open_over and sync; create_new, look_at and remove too, or, once it is whole, a copy.
    let in_place = [
        (Attributes { links: 2, ..OLD }, 3),
        (Attributes { mode, ..OLD }, 3),
        (
            Attributes {
                mode: locked,
                ..OLD
            },
            3,
        ),
        (Attributes { owner: 7, ..OLD }, 6),
        (Attributes { group: 8, ..OLD }, 8),
        (Attributes { device: 7, ..OLD }, 8),
        (
            Attributes {
                mode: 0o100640,
                ..OLD
            },
            8,
        ),
    ];
    for (attributes, calls) in in_place {
        let (folder, closed) = outputs(alloc, folder_of(alloc, &["f"], attributes)?, &["f"]);
        assert_eq!(rt; closed, 1);
        assert_eq!(rt; folder.calls(), calls);
        assert_eq!(rt; folder.bytes("f"), Some(b"new".as_slice()));
        assert_eq!(rt; folder.len(), 1);
    }
    let others = ["d/.f.rvgprof-0", "d/f"];
    let (folder, closed) = outputs(alloc, folder_of(alloc, &others, OLD)?, &["d/f"]);
    assert_eq!(rt; closed, 1);
    assert_eq!(rt; folder.bytes("d/f"), Some(b"new".as_slice()));
    assert_eq!(rt; folder.bytes("d/.f.rvgprof-0"), Some(b"old".as_slice()));
    assert_eq!(rt; folder.len(), 2);
    Ok(())
}

/// Begins an output, has another file stand there, and ends the output.
fn end_over(rt: &impl Abort, alloc: Global, old: &[&str], other: Attributes) -> Result<(), Fail> {
    let mut folder = folder_of(alloc, old, OLD)?;
    let (mut output, place) = begin(alloc, &mut folder, "f")?;
    let written = output.write_all(b"new");
    let stands = folder.put("f", b"other", other);
    let before = folder.calls();
    let taken = match place {
        Place::Beside(beside) => beside.take_place(&mut folder, &output)?,
        Place::In(_) => Taken::ByName,
    };
    written?;
    stands?;
    assert!(rt; matches!(&taken, Taken::ByCopy));
    let ended = folder.calls().saturating_sub(before);
    assert_eq!(rt; ended, 6, "sync, look, open_over, copy, sync and remove");
    assert_eq!(rt; folder.bytes("f"), Some(b"new".as_slice()));
    assert_eq!(rt; folder.len(), 1);
    Ok(())
}

#[test]
fn another_file_is_not_replaced(rt: HostRuntime) -> Result<(), Fail> {
    let alloc = rt.alloc();
    end_over(&rt, alloc, &[], OLD)?;
    for other in [
        Attributes { device: 1, ..OLD },
        Attributes { inode: 1, ..OLD },
        Attributes { links: 2, ..OLD },
        Attributes { owner: 7, ..OLD },
    ] {
        end_over(&rt, alloc, &["f"], other)?;
    }
    Ok(())
}

#[test]
fn taken_names_are_no_fault(rt: HostRuntime) -> Result<(), Fail> {
    let alloc = rt.alloc();
    let mut folder = folder_of(alloc, &["f"], OLD)?;
    for n in 0..1000 {
        let name = format!(in alloc; ".f.rvgprof-{n}")?;
        folder.put(name.as_str(), b"left", OLD)?;
    }
    let (folder, closed) = outputs(alloc, folder, &["f"]);
    assert_eq!(rt; closed, 1);
    assert_eq!(rt; folder.bytes("f"), Some(b"new".as_slice()));
    assert_eq!(rt; folder.len(), 1001);
    Ok(())
}

/// Bytes that only their owner may read.
const SECRET: Attributes = Attributes {
    device: 0,
    inode: 5,
    mode: 0o100600,
    owner: 0,
    group: 0,
    links: 1,
};

/// Somebody may change the folder d, and the program writes d/f there. The folder e isn't theirs, and e/f and e/g are
/// secret.
fn shared(alloc: Global, owner: u32) -> Result<MemFolder, AllocError> {
    let mut folder = MemFolder::new(alloc);
    folder.put("d/f", b"old", Attributes { owner, ..OLD })?;
    folder.put("e/f", b"secret", SECRET)?;
    folder.put("e/g", b"secret", Attributes { inode: 6, ..SECRET })?;
    Ok(folder)
}

/// What somebody exchanges while the program writes: the folder, the file that is found, the file beside, or both.
const EXCHANGES: [(&str, &str); 5] = [
    ("d/", "e/"),
    ("d/f", "d/mine"),
    ("d/f", "e/g"),
    ("d/.f.rvgprof-0", "d/mine"),
    ("d/.f.rvgprof-0", "e/g"),
];

/// The names that anything may stand at.
const NAMES: [&str; 8] = [
    "d/f",
    "d/g",
    "d/mine",
    "d/.f.rvgprof-0",
    "e/f",
    "e/g",
    "e/mine",
    "e/.f.rvgprof-0",
];

/// Each file has the owner and the rights that it had, and its old bytes, or what was written, or none, as `>` leaves it
/// before and after a write. A new file is root's, has what was written or nothing, and the rights of a file that stood
/// at the name. In the folder that isn't theirs, f is root's alone, as it was.
fn expect_safe(rt: &impl Abort, folder: &MemFolder, owner: u32, what: &str, call: u64) {
    for name in NAMES {
        if let Some(file) = folder.stands_at(name) {
            let bytes = folder.bytes(name).unwrap_or(b"");
            let (old, mode, user): (&[u8], u32, u32) = match file.inode {
                5 | 6 => (b"secret", 0o100600, 0),
                8 => (b"old", 0o100644, owner),
                _ => (b"", file.mode, 0),
            };
            let is_known = bytes == old || bytes == b"new".as_slice() || bytes.is_empty();
            assert!(rt; is_known, "bytes of {name}: {what} at {call}");
            assert_eq!(rt; file.mode, mode, "mode of {name}: {what} at {call}");
            assert_eq!(rt; file.owner, user, "owner of {name}: {what} at {call}");
        }
    }
    let exchanged = folder.stands_at("d/g").is_some();
    let kept = folder.stands_at(if exchanged { "d/f" } else { "e/f" });
    let own = kept.map(|file| (file.mode, file.owner));
    assert_eq!(rt; own, Some((0o100600, 0)), "the other f: {what} at {call}");
}

/// Tries one exchange behind so many calls.
fn exchanged_at(
    rt: &impl Abort,
    alloc: Global,
    owner: u32,
    (one, other): (&str, &str),
    call: u64,
) -> Result<(), AllocError> {
    let mut folder = shared(alloc, owner)?;
    folder.exchange(call, one, other)?;
    let (folder, closed) = outputs(alloc, folder, &["d/f"]);
    expect_safe(rt, &folder, owner, one, call);
    let mut whole = 0usize;
    for name in NAMES {
        if folder.bytes(name) == Some(b"new".as_slice()) {
            whole = whole.saturating_add(1);
        }
    }
    if closed == 1 {
        assert!(rt; whole > 0, "what was written: {one} at {call}");
    }
    Ok(())
}

#[test]
fn exchanged_names_give_nothing_away(rt: HostRuntime) -> Result<(), Fail> {
    for exchange in EXCHANGES {
        for owner in [0u32, 7] {
            for call in 0..14 {
                exchanged_at(&rt, rt.alloc(), owner, exchange, call)?;
            }
        }
    }
    Ok(())
}

#[test]
fn an_output_that_is_let_go_is_taken_away(rt: HostRuntime) -> Result<(), Fail> {
    let alloc = rt.alloc();
    let mut system = FolderSystem::new(alloc, folder_of(alloc, &["f"], OLD)?, Mute);
    let begun = system.create("f").is_ok() && system.create("g").is_ok();
    let (folder, _printer) = system.end();
    assert!(rt; begun);
    assert_eq!(rt; folder.bytes("f"), Some(b"old".as_slice()));
    assert_eq!(rt; folder.len(), 1);
    Ok(())
}
