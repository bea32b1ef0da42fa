//! A large profile.

ghost use Rattle.std.specs.Prelude.{◌≡◌, ◌≤◌};
ghost use Rattle.gmon_data.specs.Content.{empty_content};

use crate::rows::new_profile;
use gmon_data::Profile;
use std::alloc::{AllocError, Global};

/// Adds the calls of a ring to a profile that holds nothing.
fn add_ring(profile: &mut Profile, size: u32, cut: bool) -> Result<(), AllocError>
    requires empty { profile.old ≡ empty_content }
    requires size { size ≤ 256 }
{
    for k in 0..2_097_152u32 {
        let caller = k / 32;
        let callee = caller + 1 + k % 32;
        if !cut || callee < 65_536 {
            let from = 0x1_0000 + size * caller;
            let to = 0x1_0000 + size * (callee % 65_536);
            profile.add_calls(from, to, 1)?;
        }
    }
    Ok(())
}

/// The calls of 65,536 functions of `size` addresses each, of which each calls the 32 that follow it in
/// a ring; or, cut, only those of them that have greater numbers.
pub fn ring_of_calls(alloc: Global, size: u32, cut: bool) -> Result<Box<Profile>, AllocError>
    requires { size ≤ 256 }
{
    let mut profile = new_profile(alloc)?;
    add_ring(&mut profile, size, cut)?;
    Ok(profile)
}
