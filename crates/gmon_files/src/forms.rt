//! The two forms of a whole profile file.

ghost use Rattle.std.specs.Prelude.{◌≡◌, ◌^◌, ◌<◌, length};
ghost use Rattle.gmon_files.specs.Forms.{form_of, file_refusal};

use gp_base::{Form, GmonRefusal};

/// What a file of the GNU form begins with.
pub(crate) const GNU: &[u8] = b"gmon";

/// The form of a profile file, by its first four bytes.
#[tactic(auto, unfolding(crate::specs::Forms::form_of))]
pub fn form_of(bytes: &[u8]) -> Form
    ensures { result ≡ form_of bytes.now }
{
    let front = bytes.split_at(GNU.len().min(bytes.len())).0;
    if front == GNU { Form::Gnu } else { Form::Bsd }
}

/// The first fault of a file, in the order of its form's `read`. Takes no memory.
pub fn fault(bytes: &[u8]) -> Option<GmonRefusal>
    requires { length bytes.now < 2 ^ 32 }
    ensures { result ≡ file_refusal bytes.now }
{
    match form_of(bytes) {
        Form::Bsd => gmon_bsd::fault(bytes),
        Form::Gnu => gmon_gnu::fault(bytes),
    }
}
