ghost use Rattle.std.specs.Prelude.{None};

use crate::host_of;
use host_port::{Failed, Host, LoadRefusal, load, write_all_of};
use std::io;
use std::io::{Cursor, Empty};
use std::test::Fail;
use system_host::{OneFile, System, SystemHost};

#[test]
fn what_was_written_is_loaded(rt: HostRuntime) -> Result<(), Fail> {
    let alloc = rt.alloc();
    let mut host = host_of(alloc, "out", b"old")?;
    assert_eq!(rt;
        load(alloc, &mut host, "out", 10)?.as_slice(),
        b"old".as_slice()
    );
    host.create_output("out").map_err(|_| "create")?;
    write_all_of(&mut host, b"ab").map_err(|_| "write")?;
    write_all_of(&mut host, b"c").map_err(|_| "write more")?;
    host.close_output().map_err(|_| "close")?;
    assert_eq!(rt;
        load(alloc, &mut host, "out", 10)?.as_slice(),
        b"abc".as_slice()
    );
    let refusal = load(alloc, &mut host, "missing", 10).err();
    assert_eq!(rt; refusal, Some(LoadRefusal::ReadFault));
    Ok(())
}

/// A system whose files have room for three bytes, and which tells nothing.
#[derive(Drop)]
struct Narrow;

impl System for Narrow {
    type Input = Empty;

    type Output = Cursor<[u8; 3]>;

    ghost disk = { λ _. None };

    ghost printed = { λ _. None };

    ghost complained = { λ _. None };

    ghost changes = { λ _. None };

    ghost told_inputs = { λ s input told. Prim.cc };

    ghost told_outputs = { λ s output told. Prim.cc };

    fn open(&self, _name: &str) -> io::Result<Empty> {
        Ok(io::empty())
    }

    fn create(&mut self, _name: &str) -> io::Result<Cursor<[u8; 3]>> {
        Ok(Cursor::new([0; 3]))
    }

    fn close(&mut self, _output: Cursor<[u8; 3]>) -> io::Result<()> {
        Ok(())
    }

    fn out(&mut self, piece: &[u8]) -> io::Result<usize> {
        Ok(piece.len())
    }

    fn err(&mut self, piece: &[u8]) -> io::Result<usize> {
        Ok(piece.len())
    }
}

#[test]
fn a_short_write_is_no_whole_one(rt: HostRuntime) -> Result<(), Fail> {
    let mut host = SystemHost::new(Narrow);
    host.create_output("out").map_err(|_| "create")?;
    assert_eq!(rt; host.write(b"ab"), Ok(2));
    assert_eq!(rt; host.write(b"cd"), Ok(1), "one byte fits");
    assert_eq!(rt; host.write(b"d"), Err(Failed), "none fits");
    Ok(())
}

#[test]
fn prints_stand_one_behind_the_other(rt: HostRuntime) -> Result<(), Fail> {
    let alloc = rt.alloc();
    let mut system = OneFile::new(alloc, String::from_str(alloc, "out")?, Vec::new(alloc));
    assert_eq!(rt; system.out(b"ab").map_err(|_| "print")?, 2);
    assert_eq!(rt; system.out(b"c").map_err(|_| "print more")?, 1);
    assert_eq!(rt; system.err(b"d").map_err(|_| "complain")?, 1);
    assert_eq!(rt; system.printed(), b"abc".as_slice());
    assert_eq!(rt; system.errors(), b"d".as_slice());
    Ok(())
}
