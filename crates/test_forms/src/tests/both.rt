//! The file of a run in both forms: written, read back, and made a profile of.

ghost use Rattle.std.specs.Prelude.{◌≡◌, false};
ghost use Rattle.host_port.specs.Memory.{outside_of};

use super::pieces::in_box;
use crate::{BSD_RUN, GNU_RUN, are_of_small_run, small_run};
use gmon_data::{AddRefusal, Profile, ReadRefusal};
use gp_base::{Form, GmonRefusal, Records};
use host_port::{Failed, Host, MemHost};
use mcount_arcs::Gmon;
use std::alloc::{AllocError, Global};
use std::process::Abort;
use std::test::Fail;

const FORMS: [Form; 2] = [Form::Bsd, Form::Gnu];

/// The file of the small run at rate 100.
fn small_file(form: Form) -> &'static [u8] {
    match form {
        Form::Bsd => &BSD_RUN,
        Form::Gnu => &GNU_RUN,
    }
}

/// Writes the file of a run at rate 100.
fn write_file(form: Form, gmon: &Gmon, host: &mut MemHost) -> Result<(), Failed>
    requires { (outside_of host.old).is_writing ≡ false }
{
    host.create_output("gmon.out")?;
    match form {
        Form::Bsd => gmon_bsd::write_run(gmon, 100, host),
        Form::Gnu => gmon_gnu::write_run(gmon, 100, host),
    }
}

/// Reads the file of the small run.
fn read_small(alloc: Global, form: Form) -> Result<Records, GmonRefusal> {
    match form {
        Form::Bsd => gmon_bsd::read(alloc, &BSD_RUN),
        Form::Gnu => gmon_gnu::read(alloc, &GNU_RUN),
    }
}

fn expect_written(rt: &impl Abort, alloc: Global, form: Form, gmon: &Gmon) {
    let mut host = MemHost::new(alloc);
    let is_written = write_file(form, gmon, &mut host).is_ok();
    assert_eq!(rt;
        (is_written, host.file("gmon.out")),
        (true, Some(small_file(form))),
        "{form:?}"
    );
}

fn expect_read(rt: &impl Abort, alloc: Global, form: Form, gmon: &Gmon) -> Result<(), GmonRefusal> {
    let records = read_small(alloc, form)?;
    assert!(rt; are_of_small_run(records.recs.as_slice(), gmon), "{form:?}");
    Ok(())
}

#[test]
fn a_run_is_written_to_the_byte_and_read_back(rt: HostRuntime) -> Result<(), Fail> {
    let gmon = small_run(rt.alloc())?;
    for form in FORMS {
        expect_written(&rt, rt.alloc(), form, &gmon);
        expect_read(&rt, rt.alloc(), form, &gmon)?;
    }
    Ok(())
}

/// Whether writing failed; then a part of the file was written that is not the whole.
fn has_failed(
    rt: &impl Abort,
    host: &MemHost,
    answer: Result<(), Failed>,
    file: &[u8],
    call: u64,
) -> bool {
    let written = host.file("gmon.out").unwrap_or_default();
    let is_written = answer == Ok(());
    let due = if is_written {
        file
    } else {
        file.split_at(written.len().min(file.len().saturating_sub(1)))
            .0
    };
    assert_eq!(rt; written, due, "call {call}");
    !is_written
}

/// Writes the file of the small run while a call on the host fails.
fn fails_at(
    rt: &impl Abort,
    alloc: Global,
    form: Form,
    gmon: &Gmon,
    call: u64,
) -> Result<bool, AllocError> {
    let mut host = MemHost::new(alloc);
    host.fail_at(call)?;
    let answer = write_file(form, gmon, &mut host);
    Ok(has_failed(rt, &host, answer, small_file(form), call))
}

#[test]
fn a_failed_call_leaves_a_part_that_is_not_the_whole(rt: HostRuntime) -> Result<(), Fail> {
    let gmon = small_run(rt.alloc())?;
    for form in FORMS {
        let mut failures = 0u64;
        for call in 1..80u64 {
            if fails_at(&rt, rt.alloc(), form, &gmon, call)? {
                failures = call;
            }
        }
        assert!(rt; failures > 0, "some call fails, {form:?}");
    }
    Ok(())
}

/// The profile of the 4.4BSD file.
fn profile_of_bsd(alloc: Global) -> Result<Profile, ReadRefusal> {
    let mut reader = gmon_bsd::Reader::new(alloc);
    match reader.feed(&BSD_RUN) {
        Ok(()) => reader.into_profile(),
        Err(_) => Err(ReadRefusal::Profile(AddRefusal::OutOfMemory)),
    }
}

/// The profile of the GNU file.
fn profile_of_gnu(alloc: Global) -> Result<Profile, ReadRefusal> {
    let mut reader = gmon_gnu::Reader::new(alloc);
    match reader.feed(&GNU_RUN) {
        Ok(()) => reader.into_profile(),
        Err(_) => Err(ReadRefusal::Profile(AddRefusal::OutOfMemory)),
    }
}

fn expect_of_run(rt: &impl Abort, profile: &Profile) {
    assert_eq!(rt; (profile.samples(), profile.calls()), (304, 4));
}

#[test]
fn what_was_fed_is_a_profile(rt: HostRuntime) -> Result<(), ReadRefusal> {
    let bsd = in_box(rt.alloc(), profile_of_bsd(rt.alloc()))?;
    expect_of_run(&rt, &bsd);
    let gnu = in_box(rt.alloc(), profile_of_gnu(rt.alloc()))?;
    expect_of_run(&rt, &gnu);
    Ok(())
}
