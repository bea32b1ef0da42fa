use command_words::*;
use gp_base::Form;
use settings::{Plan, Setup};
use std::alloc::{AllocError, Global};
use std::test::Fail;

fn words_of(alloc: Global, texts: &[&str]) -> Result<Vec<String>, AllocError> {
    let mut words = Vec::new(alloc);
    for text in texts {
        words.push(String::from_str(alloc, text)?)?;
    }
    Ok(words)
}

/// What the words say of a run with no options.
const PLAIN: Setup = Setup {
    every: 1_000,
    budget: 100_000_000,
    rate: 100,
    ram_mib: 64,
    harts: 1,
    plan: Plan::RoundRobin { quantum: 1 },
    hist: 2,
    hash: 2,
    blocks: false,
};

/// The program, the profile and its form, the file for the runtime's memory, and the numbers of a run.
type Said = (u32, u32, Form, Option<u32>, Setup);

const FOUR: Setup = Setup {
    harts: 4,
    plan: Plan::RoundRobin { quantum: 3 },
    ..PLAIN
};

const EIGHT: Setup = Setup {
    harts: 8,
    plan: Plan::Seeded { seed: 5 },
    ..PLAIN
};

const SMALL: Setup = Setup {
    every: 1,
    budget: 2,
    rate: 3,
    ram_mib: 256,
    ..PLAIN
};

const COARSE: Setup = Setup {
    hist: 16,
    hash: 4,
    ..PLAIN
};

const COUNTED: Setup = Setup {
    blocks: true,
    ..PLAIN
};

const RUNS: [(&[&str], Option<Said>); 15] = [
    (&["run", "e", "g"], Some((1, 2, Form::Bsd, None, PLAIN))),
    (&["run", "run", "5"], Some((1, 2, Form::Bsd, None, PLAIN))),
    (&["run", "e", ""], Some((1, 2, Form::Bsd, None, PLAIN))),
    (
        &["run", "e", "--image", "--seed", "g"],
        Some((1, 4, Form::Bsd, Some(3), PLAIN)),
    ),
    (
        &[
            "run", "--ram", "256", "--rate", "3", "--budget", "2", "--every", "1", "e", "g",
        ],
        Some((9, 10, Form::Bsd, None, SMALL)),
    ),
    (
        &["run", "e", "--quantum", "3", "g", "--harts", "4"],
        Some((1, 4, Form::Bsd, None, FOUR)),
    ),
    (
        &["run", "e", "g", "--seed", "5", "--harts", "8"],
        Some((1, 2, Form::Bsd, None, EIGHT)),
    ),
    (
        &["run", "e", "g", "--hash", "4", "--hist", "16"],
        Some((1, 2, Form::Bsd, None, COARSE)),
    ),
    (
        &["run", "e", "g", "--gnu"],
        Some((1, 2, Form::Gnu, None, PLAIN)),
    ),
    (
        &["run", "--gnu", "e", "g", "--image", "--gnu"],
        Some((2, 3, Form::Gnu, Some(5), PLAIN)),
    ),
    (
        &["run", "--blocks", "e", "g", "--gnu"],
        Some((2, 3, Form::Gnu, None, COUNTED)),
    ),
    (&["run", "e", "g", "--blocks"], None),
    (&["run", "e", "g", "--gnu", "--gnu"], None),
    (&["run", "e", "g", "--EVERY", "5"], None),
    (&["run", "e", "g", "--every=5"], None),
];

/// The run that words say.
fn run_said(words: &[String]) -> Option<Said> {
    match read_command(words)? {
        Command::Run {
            elf,
            gmon,
            form,
            memory,
            setup,
        } => Some((elf, gmon, form, memory, setup)),
        _ => None,
    }
}

#[test]
fn runs_are_read(rt: HostRuntime) -> Result<(), Fail> {
    for (texts, wanted) in &RUNS {
        let words = words_of(rt.alloc(), texts)?;
        assert_eq!(rt; run_said(&words), *wanted, "{texts:?}");
    }
    Ok(())
}

/// An option, its value, and whether the words have a reading.
const VALUES: [(&str, &str, bool); 22] = [
    ("--every", "1", true),
    ("--every", "0", false),
    ("--every", "01", false),
    ("--every", "+5", false),
    ("--every", " 5", false),
    ("--every", "", false),
    ("--every", "5a", false),
    ("--every", "٥", false),
    ("--every", "2147483647", true),
    ("--every", "2147483648", false),
    ("--every", "4294967297", false),
    ("--every", "12345678901", false),
    ("--budget", "2147483648", false),
    ("--rate", "2147483648", false),
    ("--ram", "3", false),
    ("--ram", "4", true),
    ("--ram", "256", true),
    ("--ram", "257", false),
    ("--harts", "0", false),
    ("--harts", "9", false),
    ("--quantum", "0", false),
    ("--seed", "2147483648", false),
];

#[test]
fn values_are_numbers_within_limits(rt: HostRuntime) -> Result<(), Fail> {
    for (option, value, is_read) in &VALUES {
        let words = words_of(rt.alloc(), &["run", "e", option, value, "g"])?;
        assert_eq!(rt;
            read_command(&words).is_some(),
            *is_read,
            "{option} {value}"
        );
    }
    Ok(())
}

/// Words, and whether they have a reading.
const READINGS: [(&[&str], bool); 32] = [
    (&["run", "e", "g", "--hist", "3"], false),
    (&["run", "e", "g", "--hist", "02"], false),
    (&["run", "e", "g", "--hash", "32"], false),
    (&["demo", "1", "--hist", "8", "--hash", "2"], true),
    (&["folded", "e", "--hist", "8"], false),
    (&["profile", "e", "g", "--blocks"], false),
    (&["profile", "e", "g", "--gnu", "--blocks"], true),
    (&["profile", "--blocks", "e", "g", "--gnu"], true),
    (&["demo", "1", "--blocks"], false),
    (&["report", "e", "g", "-k", "ba"], false),
    (&["report", "e", "g", "-k", "/a"], false),
    (&["report", "e", "g", "-k", "a/"], false),
    (&["report", "e", "g", "-k", "a/b/c"], true),
    (&["report", "e", "g", "-k", "-k/--hide"], true),
    (&["report", "e", "g", "--hide"], false),
    (&["run", "e", "g", "--hide", "a"], false),
    (&["profile", "e", "g", "-k", "a/b", "--exact"], true),
    (&["run", "e", "g", "-k", "a/b"], false),
    (&["report", "e", "g", "--exact", "--exact"], false),
    (&["annotate", "e"], false),
    (&["annotate", "e", "g"], true),
    (&["annotate", "e", "g", "--flat"], false),
    (&["folded"], false),
    (&["folded", "e"], true),
    (&["folded", "e", "g"], false),
    (&["folded", "e", "--rate", "5"], false),
    (&["folded", "e", "--inclusive", "--harts", "2"], true),
    (&["folded", "e", "--seed", "1", "--quantum", "1"], false),
    (&["--help"], true),
    (&["--help", "run"], false),
    (&["--version"], true),
    (&["--version", "--help"], false),
];

#[test]
fn some_words_have_a_reading(rt: HostRuntime) -> Result<(), Fail> {
    for (texts, is_read) in &READINGS {
        let words = words_of(rt.alloc(), texts)?;
        assert_eq!(rt; read_command(&words).is_some(), *is_read, "{texts:?}");
    }
    Ok(())
}

/// Two words, how many times they stand there, and whether that has a reading.
const TIMES: [(&str, &str, u32, bool); 5] = [
    ("-k", "a/b", 16, true),
    ("-k", "a/b", 17, false),
    ("--hide", "-k", 16, true),
    ("--hide", "-k", 17, false),
    ("--flat", "--graph", 2, false),
];

#[test]
fn cuts_and_hidden_names_are_given_up_to_sixteen_times(rt: HostRuntime) -> Result<(), Fail> {
    for (option, value, times, is_read) in &TIMES {
        let words = report_with(rt.alloc(), &[option, value], *times)?;
        assert_eq!(rt;
            read_command(&words).is_some(),
            *is_read,
            "{option}, {times} times"
        );
    }
    Ok(())
}

/// A report with other words behind it, so many times.
fn report_with(alloc: Global, texts: &[&str], times: u32) -> Result<Vec<String>, AllocError> {
    let mut words = words_of(alloc, &["report", "e", "g"])?;
    for _ in 0..times {
        for text in texts {
            words.push(String::from_str(alloc, text)?)?;
        }
    }
    Ok(words)
}

#[test]
fn reports_are_chosen(rt: HostRuntime) -> Result<(), Fail> {
    let words = words_of(
        rt.alloc(),
        &[
            "report", "--hide", "-k", "e", "-k", "a/b", "g", "--exact", "-k", "b/a", "--graph",
        ],
    )?;
    let Some(
        Command::Report {
            elf,
            gmons,
            selection,
        },
    ) = read_command(&words)
    else {
        return Err("no report")?;
    };
    assert_eq!(rt; (elf, gmons.as_slice()), (3, [6].as_slice()));
    assert!(rt; matches!(selection.shown, Shown::Graph));
    assert!(rt; selection.exact);
    assert_eq!(rt; selection.cuts.as_slice(), [5, 9].as_slice());
    assert_eq!(rt; selection.hidden.as_slice(), [2].as_slice());
    Ok(())
}

#[test]
fn no_long_line_has_a_reading(rt: HostRuntime) -> Result<(), Fail> {
    let alloc = rt.alloc();
    let mut words = words_of(alloc, &["show", "g"])?;
    assert!(rt; matches!(read_command(&words), Some(Command::Show { gmon: 1 })));
    assert_eq!(rt; Words::new(&words).name(1), "g");
    assert_eq!(rt; Words::new(&words).name(2), "");
    for _ in 0..100_000 {
        words.push(String::from_str(alloc, "g")?)?;
    }
    assert!(rt; read_command(&words).is_none());
    Ok(())
}
