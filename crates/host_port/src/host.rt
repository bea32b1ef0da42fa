//! The port: what a program may ask of the outside.

ghost use Rattle.std.specs.Prelude.{◌≡◌, ◌<◌, true, false, length};
ghost use Rattle.host_port.specs.Act.{Write, Out, Err as Complain};
ghost use Rattle.host_port.specs.Outside.{Outside, IsConsistent};
ghost use Rattle.host_port.specs.Host.{Opens, Moves, Creates, Takes, Closes, Reads, Writes, Complains};

/// A call on the host that failed.
#[derive(Clone, Copy, Debug, PartialEq, Eq)]
pub struct Failed;

/// The outside of a program: one input that is read, one file that is written, and two outputs.
///
/// Contracts see it as an `Outside`: what the host tells of its files, of the open input and of both
/// outputs, how often reading, writing and complaining failed, how often an input was to be opened and
/// files were created and closed, and whether the last call failed that doesn't complain. A host need not
/// tell a content, and may stop telling it at any call.
pub trait Host {
    ghost outside: { Self → Outside };

    /// Opens the named file to be read, in place of an earlier input. After `Failed` no input is open.
    fn open_input(&mut self, name: &str) -> Result<(), Failed>
        requires { (outside self.old).is_writing ≡ false }
        ensures opens { Opens name.now (outside self.old) (outside self.new) result }
        ensures counts { Reads (outside self.old) (outside self.new) result };

    /// Moves bytes of the input to the front of `buf`, and answers how many: 0 exactly at its end, behind
    /// which nothing more is read.
    fn read(&mut self, buf: &mut [u8]) -> Result<usize, Failed>
        requires is_open { (outside self.old).is_open ≡ true }
        requires going { (outside self.old).at_end ≡ false }
        requires some_room { 0 < length buf.old }
        ensures moves { Moves buf.old buf.new (outside self.old) (outside self.new) result }
        ensures counts { Reads (outside self.old) (outside self.new) result };

    /// Makes the named file empty and begins to write it. Whatever it answers, no input is open
    /// afterwards; after `Failed` no file is being written.
    fn create_output(&mut self, name: &str) -> Result<(), Failed>
        requires { (outside self.old).is_writing ≡ false }
        ensures creates { Creates name.now (outside self.old) (outside self.new) result }
        ensures counts { Writes (outside self.old) (outside self.new) result };

    /// Writes a prefix of `piece` at the end of the file that is being written, and answers how many
    /// bytes: at least one.
    fn write(&mut self, piece: &[u8]) -> Result<usize, Failed>
        requires is_writing { (outside self.old).is_writing ≡ true }
        requires some_bytes { 0 < length piece.now }
        ensures takes { Takes Write piece.now (outside self.old) (outside self.new) result }
        ensures counts { Writes (outside self.old) (outside self.new) result };

    /// Ends the writing, also where it answers `Failed`.
    fn close_output(&mut self) -> Result<(), Failed>
        ensures closes { Closes (outside self.old) (outside self.new) }
        ensures counts { Writes (outside self.old) (outside self.new) result };

    /// Prints a prefix of `piece` on the output, and answers how many bytes: at least one.
    fn out(&mut self, piece: &[u8]) -> Result<usize, Failed>
        requires { 0 < length piece.now }
        ensures takes { Takes Out piece.now (outside self.old) (outside self.new) result }
        ensures counts { Writes (outside self.old) (outside self.new) result };

    /// Prints a prefix of `piece` on the error output, and answers how many bytes: at least one.
    fn err(&mut self, piece: &[u8]) -> Result<usize, Failed>
        requires { 0 < length piece.now }
        ensures takes { Takes Complain piece.now (outside self.old) (outside self.new) result }
        ensures counts { Complains (outside self.old) (outside self.new) result }
        ensures last { (outside self.new).last_failed ≡ (outside self.old).last_failed };

    /// At every moment.
    ghost consistent: { (host : Self) → IsConsistent (outside host) };
}
