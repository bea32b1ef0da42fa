//! What the definitions say of small cases: where a program, its break and the stacks lie, and which
//! hart takes which turn.

ghost use Rattle.std.specs.Prelude.{◌≡◌, [], ◌∷◌, Some, map, slice_get};
ghost use Rattle.std.specs.List.{range_with_len};
ghost use Rattle.settings.specs.declared.setup.Plan.TheVariants.{RoundRobin, Seeded};
ghost use Rattle.prof_machine.specs.Plan.{state_after, taker_of};
ghost use Rattle.prof_machine.specs.Start.{base_in, break_behind, first_registers, program_end_in};

fn memory_begins_at_a_page()
    ensures lowest { base_in (record { addr = 0x12345; offset = 0; filesz = 0; memsz = 1 }
        ∷ record { addr = 0x11FFF; offset = 0; filesz = 0; memsz = 2 } ∷ []) ≡ 0x11000 }
    ensures none { base_in [] ≡ 0 }
{}

fn a_program_ends_behind_its_highest_segment()
    ensures highest { program_end_in (record { addr = 0x12345; offset = 0; filesz = 0; memsz = 1 }
        ∷ record { addr = 0x11FFF; offset = 0; filesz = 0; memsz = 2 } ∷ []) ≡ 0x12346 }
    ensures none { program_end_in [] ≡ 0 }
{}

fn the_break_begins_behind_the_program()
    ensures rounded { break_behind 0x10001 ≡ 0x10010 }
    ensures whole { break_behind 0x10010 ≡ 0x10010 }
{}

fn stacks_lie_one_below_the_other()
    ensures first { slice_get (first_registers 0x10000 0x410000 8 0).x 2 ≡ Some 0x40FFF0 }
    ensures second { slice_get (first_registers 0x10000 0x410000 8 1).x 2 ≡ Some 0x3CFFF0 }
    ensures last { slice_get (first_registers 0x10000 0x410000 8 7).x 2 ≡ Some 0x24FFF0 }
    ensures number { slice_get (first_registers 0x10000 0x410000 8 7).x 10 ≡ Some 7 }
    ensures harts { slice_get (first_registers 0x10000 0x410000 8 7).x 11 ≡ Some 8 }
{}

fn harts_take_turns()
    ensures alone { map (taker_of (RoundRobin 1) 1) (range_with_len 0 3) ≡ 0 ∷ 0 ∷ 0 ∷ [] }
    ensures round { map (taker_of (RoundRobin 2) 3) (range_with_len 0 8)
        ≡ 0 ∷ 0 ∷ 1 ∷ 1 ∷ 2 ∷ 2 ∷ 0 ∷ 0 ∷ [] }
    ensures drawn { state_after 1 1 ≡ 0x40822041 }
    ensures again { state_after 1 2 ≡ 0x100041060C011441 }
    ensures seeded { map (taker_of (Seeded 1) 2) (range_with_len 0 3) ≡ 1 ∷ 1 ∷ 1 ∷ [] }
    ensures among_eight { taker_of (Seeded 1) 8 0 ≡ 1 }
{}

#[test]
fn the_definitions_at_small_cases() {
    memory_begins_at_a_page();
    a_program_ends_behind_its_highest_segment();
    the_break_begins_behind_the_program();
    stacks_lie_one_below_the_other();
    harts_take_turns();
}
