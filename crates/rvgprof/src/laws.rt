//! What follows from the contract of the program.

ghost use Rattle.std.specs.Prelude.{◌≡◌, ◌↔◌, ◌⊎◌, ◌++◌, ℕ, List, true, Option, Some, Result, Err, IsOk, []};
ghost use Rattle.host_port.specs.Act.{Act};
ghost use Rattle.host_port.specs.Outside.{Outside};
ghost use Rattle.settings.specs.declared.setup.Setup.{Setup};
ghost use Rattle.courses.specs.declared.outcome.Done.{Done};
ghost use Rattle.courses.specs.declared.outcome.Fault.{Fault};
ghost use Rattle.courses.specs.declared.outcome.Fault.TheVariants.{OutOfMemory};
ghost use Rattle.command_words.specs.declared.words.Command.TheVariants.{Demo};
ghost use Rattle.command_words.specs.Words.{command_of};
ghost use Rattle.courses.specs.Course.{Course, reply_to, MayStop};
ghost use Rattle.courses.specs.Answer.{contents_of, course_of};
ghost use Rattle.courses.specs.Contract.{LineEnds, WhereTold};
ghost use Rattle.rvgprof.specs.Completeness.{Stayed, NoneFailed, Complete};
ghost use Rattle.rvgprof.specs.Acceptance.{IsAccepted, acts_at_once};
ghost use Rattle.rvgprof.specs.Headline.{Answered, ExecutionsAreListed};
ghost use Rattle.rvgprof.specs.Alike.{AlikeFilesHaveNoConflict};
ghost use Rattle.rvgprof.specs.Examples.{FileExamples, WordExamples};
ghost use Rattle.rvgprof.specs.RunFile.{ProfileFilesAreReadBack, RunFilesAreReadBack};

/// The files that the program writes say what they are made from, and are read in the form that their first
/// four bytes choose: the file of a run has the samples, the calls and, where they are counted, the
/// executions of the run, and that of a sum has the sum.
pub fn files_read_back()
    ensures run { RunFilesAreReadBack }
    ensures profile { ProfileFilesAreReadBack }
{}

/// In the profile of one file of a run that counted executions, those at an instruction's address are how often it
/// retired in that run. A cell of the listing shows them.
#[tactic(auto, using(crate::proofs::HeadlineLemmas::executions_listed))]
pub fn executions_are_listed()
    ensures { ExecutionsAreListed }
{}

/// Where no call on the host failed, the program answers what the definition says, having done all that
/// is due, or that memory ran out. That none failed is seen by the counts of faults: none rose, and none
/// stands at its end. The call that prints the last line may fail where nothing else is to be printed on
/// the error output; where it didn't, the line is there as a whole.
pub fn completeness()
    ensures answer { (words : List (List ℕ)) (old new : Outside) (result : Result Done Fault)
        → Answered words old new result → NoneFailed words old new
        → (result ≡ Err OutOfMemory) ⊎ Complete words old new result }
    ensures line { (line whole : List ℕ) (before after : ℕ) → LineEnds line whole before after
        → Stayed before after → line ≡ whole }
{}

/// The definition's ending is that the command was carried out exactly where all is accepted: the words
/// have a reading, each input file is within its limit and not refused, the profiles are alike, no exact
/// time that is asked for is too wide, and a run can start.
#[tactic(auto, using(crate::proofs::AcceptanceLemmas::accepted))]
pub fn acceptance()
    ensures { (words : List (List ℕ)) (contents : ℕ → List ℕ)
        → IsOk (reply_to contents (course_of words)).ending
        ↔ IsAccepted words contents (command_of words) }
{}

/// A command is carried out exactly where it is accepted, unless a call on the host failed or memory ran out: for some
/// contents of its inputs, which are those of the files where the host tells them.
pub fn accepted_is_done()
    ensures { (words : List (List ℕ)) (old new : Outside) (result : Result Done Fault)
        → Answered words old new result → NoneFailed words old new
        → (result ≡ Err OutOfMemory) ⊎ ((contents : ℕ → List ℕ)
        × WhereTold old new (λ files. contents ≡ contents_of words files)
        × (IsOk result ↔ IsAccepted words contents (command_of words))) }
{}

/// Words that say a demo are accepted, whatever the inputs: its program is never refused, and a run of it
/// starts. So it is carried out, unless a call on the host failed or memory ran out.
pub fn demo_is_done()
    ensures accepted { (words : List (List ℕ)) (contents : ℕ → List ℕ) (functions : ℕ)
        (elf : Option ℕ) (setup : Setup) → command_of words ≡ Some (Demo functions elf setup)
        → IsAccepted words contents (command_of words) }
    ensures done { (words : List (List ℕ)) (functions : ℕ) (elf : Option ℕ) (setup : Setup)
        (old new : Outside) (result : Result Done Fault)
        → command_of words ≡ Some (Demo functions elf setup) → Answered words old new result
        → NoneFailed words old new → (result ≡ Err OutOfMemory) ⊎ IsOk result }
{
    demo_laws::laws::demo_is_accepted();
    demo_laws::laws::demo_starts();
    demo_laws::laws::witness_is_accepted();
}

/// Where memory ran out, what was done is a prefix of what is due, and nothing for the commands that do
/// all at once.
#[tactic(auto, using(crate::proofs::AcceptanceLemmas::idle, crate::proofs::CompletenessLemmas::memory_leaves))]
pub fn what_memory_leaves()
    ensures prefix { (contents : ℕ → List ℕ) (course : Course) (acts : List Act)
        → MayStop contents course acts → (rest : List Act)
        × ((reply_to contents course).acts ≡ acts ++ rest) }
    ensures nothing { (words : List (List ℕ)) (contents : ℕ → List ℕ) (acts : List Act)
        → acts_at_once (command_of words) ≡ true
        → MayStop contents (course_of words) acts → acts ≡ [] }
{}

/// Files that are each alike with those before them have no conflict among all their records, so that the histograms of
/// what they add up to have ranges and counters, and are apart.
#[tactic(auto, using(crate::proofs::AlikeLemmas::alike_files))]
pub fn alike_files_have_no_conflict()
    ensures { AlikeFilesHaveNoConflict }
{}

/// A profile file of each form that is written out byte by byte is accepted, and read as its records; and words of each
/// command say it.
#[tactic(auto, using(crate::proofs::ExampleLemmas::files_read))]
pub fn examples_are_read()
    ensures files { FileExamples }
    ensures words { WordExamples }
{}
