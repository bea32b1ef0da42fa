//! Lines on their way to the output.

ghost use Rattle.std.specs.Prelude.{◌≡◌, ◌+◌, ◌≤◌, [], length, OnOk};
ghost use Rattle.host_port.specs.Buffered.{Adds};
ghost use Rattle.host_port.specs.declared.side.Side.TheVariants.{Output};
ghost use Rattle.text_lines.specs.Pending.{pending};

use host_port::{Failed, Host, PrintBuf};
use text_cols::Line;

/// The last lines, in the room of one, and what is pending before them.
#[derive(Drop)]
pub(crate) struct Lines {
    before: PrintBuf,
    pub(crate) last: Line,
}

impl Lines {
    /// Nothing is pending.
    pub(crate) fn new() -> Lines
        ensures { pending result ≡ [] }
    {
        Lines {
            before: PrintBuf::new(),
            last: Line::new(),
        }
    }

    /// Makes room for so many bytes behind the last lines.
    pub(crate) fn make_room<H: Host>(&mut self, room: usize, host: &mut H) -> Result<(), Failed>
        requires { room ≤ 256 }
        ensures adds { Adds Output [] (pending self.old) (pending self.new) (H.outside host.old)
            (H.outside host.new) result }
        ensures room { OnOk result (length self.new.last + room ≤ 256) }
    {
        if self.last.room() >= room {
            return Ok(());
        }
        let put = self.before.put(host, self.last.bytes());
        self.last.clear();
        put
    }

    /// Prints what is pending.
    pub(crate) fn flush<H: Host>(&mut self, host: &mut H) -> Result<(), Failed>
        ensures adds { Adds Output [] (pending self.old) (pending self.new) (H.outside host.old)
            (H.outside host.new) result }
        ensures emptied { pending self.new ≡ [] }
    {
        self.make_room(256, host)?;
        self.before.flush(host)
    }
}
