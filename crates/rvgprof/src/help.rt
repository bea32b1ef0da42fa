//! The commands `--help` and `--version`.

ghost use Rattle.std.specs.Prelude.{◌≡◌, ◌≢◌, [], Err};
ghost use Rattle.courses.specs.Answer.{text_course};
ghost use Rattle.courses.specs.Contract.{Acted};
ghost use Rattle.courses.specs.Standing.{Stands};
ghost use Rattle.courses.specs.Help.{help_text as spec_help, version_text as spec_version};

use command_words::Words;
use courses::{Done, Fault};
use host_port::{Host, out_all_of};

/// What the commands and options are.
#[tactic(auto, unfolding(courses::specs::Help::help_text))]
fn help_text() -> &'static [u8]
    ensures { result.now ≡ spec_help }
{
    b"usage: rvgprof COMMAND ..\n\nrun ELF GMON        run a program of RV32IM and write its profile to GMON\nprofile ELF GMON    run it, write its profile, and print reports of it\nreport ELF GMON..   add up 1 to 16 gmon.out files and print reports of their sum\nannotate ELF GMON.. print each instruction with its executions and its time\nfolded ELF          run a program and print its call stacks for flame graphs\nsum OUT GMON..      add up 1 to 16 gmon.out files and write their sum to OUT\nshow GMON           print the records of a gmon.out file\nsyms ELF            print the text, hooks and function symbols of a program\ndemo N              make, run and sum up a program of N functions, 1 to 2000\n--help, --version   print this text, or the version\n\nof run, profile, demo and folded:\n  --every N         instructions from sample to sample (1000)\n  --budget N        instructions in all (100000000)\n  --ram MIB         MiB of memory, 4 to 256 (64)\n  --harts N         harts, 1 to 8 (1)\n  --quantum N       turns of a hart before the next one's (1)\n  --seed N          a seeded schedule instead; not beside --quantum\nof run, profile and demo:\n  --rate N          samples per second, as GMON says (100)\n  --hist N          bytes of text to a byte of counters: 2, 4, 8 or 16 (2)\n  --hash N          bytes of text to a byte of call sites: 2, 4, 8 or 16 (2)\nof run and profile:\n  --gnu             the GNU form of gmon.out instead of that of 4.4BSD\n  --blocks          execution counts too; only beside --gnu\n  --image FILE      write the memory of the profiling runtime to FILE\nof report and profile:\n  --flat, --graph   the flat profile or the call graph alone (both)\n  --exact           then the times with nothing rounded\n  -k FROM/TO        leave out calls of FROM to TO, up to 16 times\n  --hide NAME       print no line or entry of function NAME, up to 16 times\nof folded:\n  --inclusive       the functions on stacks instead, with their samples\nof demo:\n  --elf FILE        write the program to FILE\nN is 1 to 2147483647 where nothing else is said.\nThe status is 0, or says what went wrong: see the manual page.\n"
}

/// The program's name and version.
#[tactic(auto, unfolding(courses::specs::Help::version_text))]
fn version_text() -> &'static [u8]
    ensures { result.now ≡ spec_version }
{
    b"rvgprof 1.0\n"
}

/// Prints what the commands and options are. Takes no memory.
pub fn help<H: Host>(words: &Words<'_>, host: &mut H) -> Result<Done, Fault>
    requires { Stands words.now (H.outside host.old)
        (H.outside host.old) 0 [] (text_course spec_help) }
    ensures acted { Acted words.now (H.outside host.old) (H.outside host.new) result }
    ensures memory { result ≢ Err Fault.OutOfMemory }
{
    print(words, help_text(), host)
}

/// Prints the program's name and version. Takes no memory.
pub fn version<H: Host>(words: &Words<'_>, host: &mut H) -> Result<Done, Fault>
    requires { Stands words.now (H.outside host.old) (H.outside host.old) 0 []
        (text_course spec_version) }
    ensures acted { Acted words.now (H.outside host.old) (H.outside host.new) result }
    ensures memory { result ≢ Err Fault.OutOfMemory }
{
    print(words, version_text(), host)
}

/// Prints a text, and does nothing else.
fn print<H: Host>(_words: &Words<'_>, text: &[u8], host: &mut H) -> Result<Done, Fault>
    requires { Stands _words.now (H.outside host.old)
        (H.outside host.old) 0 [] (text_course text.now) }
    ensures acted { Acted _words.now (H.outside host.old) (H.outside host.new) result }
    ensures memory { result ≢ Err Fault.OutOfMemory }
{
    match out_all_of(host, text) {
        Ok(()) => Ok(Done { run: None }),
        Err(_) => Err(Fault::WriteFault),
    }
}
