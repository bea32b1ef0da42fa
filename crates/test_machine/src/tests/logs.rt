//! What the definitions on logs say of small logs: four calls of one call site, a table that is full,
//! modes, and the ends of a text.
#![tactic(auto, unfolding(mcount_arcs::specs::Arcs::arcs_of, mcount_arcs::specs::Arcs::chain_of, mcount_arcs::specs::Arcs::looks_of, mcount_arcs::specs::Image::entries_of, mcount_arcs::specs::Image::fronts_of, mcount_arcs::specs::Log::entered_calls, mcount_arcs::specs::Log::kept_calls, mcount_arcs::specs::Log::state_of, mcount_arcs::specs::Samples::counted_samples))]

ghost use Rattle.std.specs.Prelude.{◌≡◌, ◌-◌, ◌^◌, [], ◌∷◌, ◌++◌, true, false, slice_get, Some, length};
ghost use Rattle.mcount_arcs.specs.declared.state.State.TheVariants.{On, Busy, Error, Off};
ghost use Rattle.mcount_arcs.specs.Arcs.{arcs_of, chain_of, looks_of};
ghost use Rattle.test_machine.specs.Logs.{example_sizes, three_entry_sizes, call_log};
ghost use Rattle.mcount_arcs.specs.Image.{entries_of, fronts_of};
ghost use Rattle.mcount_arcs.specs.Log.{Sample, Mode, Enter, WalkDone, kept_calls, state_of};
ghost use Rattle.mcount_arcs.specs.Samples.{bucket_of, counted_samples};
ghost use Rattle.mcount_arcs.specs.Sizes.{offset_of, slot_of};

fn the_callee_that_was_called_latest_stands_first()
    ensures first_look { looks_of example_sizes [] 4 0x10040 ≡ 1 }
    ensures second_look { looks_of example_sizes (call_log 0x10040) 4 0x10080 ≡ 1 }
    ensures third_look { looks_of example_sizes (call_log 0x10040 ++ call_log 0x10080) 4 0x10040
        ≡ 2 }
    ensures fourth_look { looks_of example_sizes (call_log 0x10040 ++ call_log 0x10080
        ++ call_log 0x10040) 4 0x100C0 ≡ 2 }
    ensures chain { chain_of example_sizes (call_log 0x10040 ++ call_log 0x10080 ++ call_log 0x10040
        ++ call_log 0x100C0) 4 ≡ 0x100C0 ∷ 0x10040 ∷ 0x10080 ∷ [] }
    ensures arcs { arcs_of example_sizes (call_log 0x10040 ++ call_log 0x10080
        ++ call_log 0x10040 ++ call_log 0x100C0) ≡
        record { from = 0x10010; to = 0x100C0; count = 1 }
        ∷ record { from = 0x10010; to = 0x10040; count = 2 }
        ∷ record { from = 0x10010; to = 0x10080; count = 1 } ∷ [] }
{}

fn its_entries_are_linked()
    ensures all { length (entries_of example_sizes (call_log 0x10040 ++ call_log 0x10080
        ++ call_log 0x10040 ++ call_log 0x100C0)) ≡ 50 }
    ensures count { slice_get (entries_of example_sizes
        (call_log 0x10040 ++ call_log 0x10080 ++ call_log 0x10040 ++ call_log 0x100C0)) 0
        ≡ Some (record { selfpc = 0; count = 0; link = 3 }) }
    ensures first { slice_get (entries_of example_sizes
        (call_log 0x10040 ++ call_log 0x10080 ++ call_log 0x10040 ++ call_log 0x100C0)) 1
        ≡ Some (record { selfpc = 0x10040; count = 2; link = 2 }) }
    ensures second { slice_get (entries_of example_sizes
        (call_log 0x10040 ++ call_log 0x10080 ++ call_log 0x10040 ++ call_log 0x100C0)) 2
        ≡ Some (record { selfpc = 0x10080; count = 1; link = 0 }) }
    ensures third { slice_get (entries_of example_sizes
        (call_log 0x10040 ++ call_log 0x10080 ++ call_log 0x10040 ++ call_log 0x100C0)) 3
        ≡ Some (record { selfpc = 0x100C0; count = 1; link = 1 }) }
    ensures slot { slice_get (fronts_of example_sizes (call_log 0x10040 ++ call_log 0x10080
        ++ call_log 0x10040 ++ call_log 0x100C0)) 4 ≡ Some 3 }
{}

fn arcs_run_out()
    ensures before { state_of three_entry_sizes (call_log 0x10040 ++ call_log 0x10080) ≡ On }
    ensures state { state_of three_entry_sizes (call_log 0x10040 ++ call_log 0x10080
        ++ call_log 0x100C0) ≡ Error }
    ensures mode { state_of three_entry_sizes (call_log 0x10040 ++ call_log 0x10080
        ++ call_log 0x100C0 ++ Mode false ∷ []) ≡ Error }
    ensures arcs { arcs_of three_entry_sizes (call_log 0x10040
        ++ call_log 0x10080 ++ call_log 0x100C0) ≡
        record { from = 0x10010; to = 0x10080; count = 1 }
        ∷ record { from = 0x10010; to = 0x10040; count = 1 } ∷ [] }
    ensures entries { entries_of three_entry_sizes (call_log 0x10040
        ++ call_log 0x10080 ++ call_log 0x100C0) ≡
        record { selfpc = 0; count = 0; link = 3 }
        ∷ record { selfpc = 0x10040; count = 1; link = 0 }
        ∷ record { selfpc = 0x10080; count = 1; link = 1 } ∷ [] }
    ensures samples { bucket_of three_entry_sizes (call_log 0x10040 ++ call_log 0x10080
        ++ call_log 0x100C0 ++ Sample 0x10000 ∷ []) 0 ≡ 1 }
{}

fn modes_switch_samples_and_calls()
    ensures off { state_of example_sizes (Mode false ∷ []) ≡ Off }
    ensures on { state_of example_sizes (Mode false ∷ Mode true ∷ []) ≡ On }
    ensures busy { state_of example_sizes (Enter 0x10010 0x10040 ∷ Mode false ∷ []) ≡ Busy }
    ensures after { state_of example_sizes (Enter 0x10010 0x10040 ∷ Mode false ∷ WalkDone ∷ [])
        ≡ Off }
    ensures counts { counted_samples example_sizes
        (Mode false ∷ Sample 0x10000 ∷ Mode true ∷ Sample 0x10004 ∷ []) ≡ 0x10004 ∷ [] }
    ensures pending { arcs_of example_sizes (Enter 0x10010 0x10040 ∷ []) ≡ [] }
{}

fn the_text_ends_behind_its_last_slot()
    ensures last { slot_of example_sizes 0x100FC ≡ 63 }
    ensures behind { offset_of example_sizes 0x10100 ≡ 0x100 }
    ensures below { offset_of example_sizes 0xFFFC ≡ 2 ^ 32 - 4 }
{}

#[test]
fn the_definitions_at_small_logs() {
    the_callee_that_was_called_latest_stands_first();
    its_entries_are_linked();
    arcs_run_out();
    modes_switch_samples_and_calls();
    the_text_ends_behind_its_last_slot();
}
