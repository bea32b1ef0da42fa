//! Files that are written as a whole.

ghost use Rattle.std.specs.Prelude.{◌≡◌, false};
ghost use Rattle.host_port.specs.Performing.{Performs};
ghost use Rattle.courses.specs.Answer.{file_acts};

use host_port::{Failed, Host, write_all_of};

/// Writes bytes to the named file.
pub fn write_file<H: Host>(name: &str, bytes: &[u8], host: &mut H) -> Result<(), Failed>
    requires { (H.outside host.old).is_writing ≡ false }
    ensures { Performs (file_acts name.now bytes.now) (H.outside host.old)
        (H.outside host.new) result }
{
    host.create_output(name)?;
    write_all_of(host, bytes)?;
    host.close_output()
}
