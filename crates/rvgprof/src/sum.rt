//! The command `sum`.

ghost use Rattle.std.specs.Prelude.{◌≡◌, [], false, OnOk};
ghost use Rattle.gmon_gnu.specs.ProfileText.{profile_text};
ghost use Rattle.host_port.specs.Performing.{Performs};
ghost use Rattle.courses.specs.Answer.{file_acts, sum_course};
ghost use Rattle.courses.specs.Contract.{Acted};
ghost use Rattle.rvgprof.specs.Fitting.{SumIsProfile};
ghost use Rattle.command_words.specs.Items.{nth_word};
ghost use Rattle.courses.specs.Standing.{Stands};
ghost use Rattle.command_words.specs.Words.{AreRising};

use command_inputs::read_profiles;
use command_words::Words;
use courses::{Done, Fault};
use gmon_data::Profile;
use host_port::{Failed, Host};
use std::alloc::Global;

/// Adds up profile files, and writes their sum in the GNU form.
pub fn sum<H: Host>(
    alloc: Global,
    words: &Words<'_>,
    out: u32,
    gmons: &[u32],
    host: &mut H,
) -> Result<Done, Fault>
    requires stands { Stands words.now (H.outside host.old) (H.outside host.old) 0 []
        (sum_course (nth_word words.now out) gmons.now) }
    requires rising { AreRising gmons.now }
    ensures acted { Acted words.now (H.outside host.old) (H.outside host.new) result }
    ensures fits { OnOk result (SumIsProfile words.now (H.outside host.old)
        (H.outside host.new) gmons.now) }
{
    let total = read_profiles(alloc, words, gmons, host)?;
    total.holds();
    match write_profile(&total, words.name(out), host) {
        Ok(()) => Ok(Done { run: None }),
        Err(_) => Err(Fault::WriteFault),
    }
}

/// Writes a profile to the named file.
fn write_profile<H: Host>(profile: &Profile, name: &str, host: &mut H) -> Result<(), Failed>
    requires { (H.outside host.old).is_writing ≡ false }
    ensures { Performs (file_acts name.now (profile_text profile.now)) (H.outside host.old)
        (H.outside host.new) result }
{
    host.create_output(name)?;
    gmon_gnu::write(profile, host)?;
    host.close_output()
}
