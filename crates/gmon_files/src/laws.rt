//! What follows from the definition of the two forms.

ghost use Rattle.gmon_files.specs.Forms.{RecordsHaveSpans};
ghost use Rattle.gmon_files.specs.Runs.{RunFilesSayTheirLogs};

/// The file of a run is read as what was logged, in the form that its first four bytes choose. It holds for
/// the sizes of every text by every two fractions, every log, and every rate of four bytes, where the callees
/// and the counts of the log's arcs have four bytes each; those of every log that a `Gmon` stands for do.
pub fn run_read_back()
    ensures { RunFilesSayTheirLogs }
{}

/// In a file that isn't refused, the counters of each histogram that has any share a range of addresses that isn't
/// empty.
pub fn records_have_spans()
    ensures { RecordsHaveSpans }
{}
