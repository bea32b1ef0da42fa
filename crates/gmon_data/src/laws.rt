//! What follows from the definitions of a content.

ghost use Rattle.gmon_data.specs.Laws.{CountersAddUp, ExecutionsAddUp, RangesAreOfRecords, RecordsAddUp};

/// Each counter is the sum of that counter: for every low address and every place, the histograms of a
/// content together count there what the histograms among its records count.
#[tactic(auto, using(crate::proofs::HistLemmas::counts_of_all), unfolding(crate::specs::Content::content_of))]
pub fn counters_add_up()
    ensures { CountersAddUp }
{}

/// The content of records and more records is that of the first ones, with the others added one by one.
pub fn records_add_up()
    ensures { RecordsAddUp }
{}

/// The executions at an address are all that the records have there.
#[tactic(auto, using(crate::proofs::RunLemmas::runs_of_records))]
pub fn executions_add_up()
    ensures { ExecutionsAddUp }
{}

/// The ranges of histograms of a content without conflict are those of its records, each once, in
/// ascending order and apart.
#[tactic(auto, using(crate::proofs::RangeLemmas::ranges_of_content))]
pub fn ranges_are_of_records()
    ensures { RangesAreOfRecords }
{}
