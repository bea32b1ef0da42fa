//! What follows from the form and from the definitions on runs.

ghost use Rattle.std.specs.Prelude.{◌≡◌, List, ℕ, None};
ghost use Rattle.gp_base.specs.Bytes.{IsBytes};
ghost use Rattle.gp_base.specs.declared.records.Records.{Records};
ghost use Rattle.gmon_gnu.specs.Faults.{FaultsAreAnswered};
ghost use Rattle.gmon_gnu.specs.Grammar.{GnuSpells};
ghost use Rattle.gmon_gnu.specs.Reading.{gnu_refusal, gnu_records};
ghost use Rattle.gmon_gnu.specs.ProfileText.{ProfilesAreSpelled, ProfilesAreReadBack};
ghost use Rattle.gmon_gnu.specs.CountedRun.{CountedRunsAreSpelled, CountedRunsAreReadBack};
ghost use Rattle.gmon_gnu.specs.Run.{RunsAreSpelled, RunsAreReadBack};

/// A text has exactly one meaning, exactly where nothing is refused.
pub fn one_meaning()
    ensures spelled { (bytes : List ℕ) → IsBytes bytes → gnu_refusal bytes ≡ None
        → GnuSpells bytes (gnu_records bytes) }
    ensures accepted { (bytes : List ℕ) (r : Records) → GnuSpells bytes r
        → gnu_refusal bytes ≡ None }
    ensures only { (bytes : List ℕ) (r : Records) → GnuSpells bytes r → r ≡ gnu_records bytes }
{}

/// A file is refused exactly where it has a fault by the grammar, and with the refusal that names it: a fault
/// of the header, or of the record behind records without a fault.
#[tactic(auto, using(crate::proofs::FaultLemmas::faults_answered))]
pub fn first_fault()
    ensures { FaultsAreAnswered }
{}

/// The file of a run is read as what was logged: its counters and its arcs, in order. It holds for the
/// sizes of every text, every log and every rate of four bytes, where the callees and the counts of the
/// log's arcs have four bytes each; those of every log that a `Gmon` stands for do.
pub fn run_read_back()
    ensures spelled { RunsAreSpelled }
    ensures read { RunsAreReadBack }
{}

/// With a record of executed instructions behind it, the file of a run is read as both: the run's records,
/// and one record of each instruction that was executed with its count, or none where nothing was executed.
pub fn counted_run_read_back()
    ensures spelled { CountedRunsAreSpelled }
    ensures read { CountedRunsAreReadBack }
{}

/// The file of a profile is read as what has the profile's content: a counter, calls and executions that
/// were split over records are put together again. It holds for the content of every profile.
pub fn profile_read_back()
    ensures spelled { ProfilesAreSpelled }
    ensures read { ProfilesAreReadBack }
{}
