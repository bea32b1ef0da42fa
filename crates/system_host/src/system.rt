//! What is asked of the system: each method is one call.

ghost use Rattle.std.specs.Prelude.{◌≡◌, ℕ, List, [], ◌∷◌, ◌++◌, true, Option, is_ok, is_some, option_map, IfOk, IfSome, OnOk, OnErr};
ghost use Rattle.std.specs.Io.{WritesAtMost};
ghost use Rattle.host_port.specs.Act.{Disk, Create, Write as Put, Close, disk_after, file_content};
ghost use Rattle.host_port.specs.Outside.{Becomes};
ghost use Rattle.system_host.specs.Told.{Change, Created, Closed, bytes_of, Prints};

use std::io;
use std::io::{Read, Write};

/// The files, the output and the error output of a system.
///
/// Contracts see what a system tells of them: its files with the name of the one that is being written,
/// what was printed on each output, and which calls made and closed a file, and whether they succeeded. It may stop
/// telling its files at any call that makes or closes one, and then never tells them again. While it tells them it tells what is
/// left of each input and what was written to each output. The bytes that were written are in the file once
/// it is closed.
pub trait System {
    type Input: Read + Drop;

    type Output: Write + Drop;

    ghost disk: { Self → Option Disk };

    ghost printed: { Self → Option (List ℕ) };

    ghost complained: { Self → Option (List ℕ) };

    ghost changes: { Self → Option (List Change) };

    /// Opens the named file to be read from its beginning.
    fn open(&self, name: &str) -> io::Result<Self::Input>
        ensures { IfOk result (λ input. IfSome (disk self.now)
            (λ d. bytes_of (Self.Input.remaining input) ≡ file_content name.now d.files)) };

    /// Makes the named file empty, and opens it to be written.
    fn create(&mut self, name: &str) -> io::Result<Self::Output>
        ensures done { OnOk result
            (Becomes (disk_after (Create name.now ∷ [])) (disk self.old) (disk self.new)) }
        ensures failed { OnErr result (Becomes (disk_after []) (disk self.old) (disk self.new)) }
        ensures empty { IfOk result (λ output. IfSome (disk self.new)
            (λ _. bytes_of (Self.Output.contents output) ≡ [])) }
        ensures changed { Becomes (λ changes. changes ++ Created name.now (is_ok result) ∷ [])
            (changes self.old) (changes self.new) }
        ensures out { printed self.new ≡ printed self.old }
        ensures err { complained self.new ≡ complained self.old };

    /// Ends the writing, also where it answers an error.
    fn close(&mut self, output: Self::Output) -> io::Result<()>
        ensures done { Becomes
            (disk_after (Put (bytes_of (Self.Output.contents output)) ∷ Close ∷ []))
            (disk self.old) (disk self.new) }
        ensures changed { Becomes (λ changes. changes
            ++ Closed (bytes_of (Self.Output.contents output)) (is_ok result) ∷ [])
            (changes self.old) (changes self.new) }
        ensures out { printed self.new ≡ printed self.old }
        ensures err { complained self.new ≡ complained self.old };

    /// Prints a prefix of `piece` on the output, and answers how many bytes.
    fn out(&mut self, piece: &[u8]) -> io::Result<usize>
        ensures bound { WritesAtMost result piece.now }
        ensures out { Prints (printed self.old) (printed self.new) piece.now result }
        ensures err { complained self.new ≡ complained self.old }
        ensures disk { disk self.new ≡ disk self.old }
        ensures same { changes self.new ≡ changes self.old };

    /// Prints a prefix of `piece` on the error output, and answers how many bytes.
    fn err(&mut self, piece: &[u8]) -> io::Result<usize>
        ensures bound { WritesAtMost result piece.now }
        ensures out { printed self.new ≡ printed self.old }
        ensures err { Prints (complained self.old) (complained self.new) piece.now result }
        ensures disk { disk self.new ≡ disk self.old }
        ensures same { changes self.new ≡ changes self.old };

    /// What is left of an input is told where the files are.
    ghost told_inputs: { (s : Self) (input : Self.Input) → is_some (disk s) ≡ true →
        is_some (Self.Input.remaining input) ≡ true };

    /// What was written to an output is told where the files are.
    ghost told_outputs: { (s : Self) (output : Self.Output) → is_some (disk s) ≡ true →
        is_some (Self.Output.contents output) ≡ true };
}
