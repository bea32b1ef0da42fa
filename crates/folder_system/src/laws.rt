//! What the calls of an output leave at the named file: now, which a kill leaves, and after a crash.

ghost use Rattle.std.specs.Prelude.{◌≡◌, ◌++◌, ℕ, Bool, List, Option, take, None, [], ◌∷◌, true, false, bytes_eq};
ghost use Rattle.host_port.specs.Act.{File, with_file};
ghost use Rattle.folder_system.specs.Names.{numbered};
ghost use Rattle.folder_system.specs.Events.{Event, Answer, Removed, is_stored, files_after, without};
ghost use Rattle.folder_system.specs.Entries.{Entries, FileState, Whole, Spares, IsCareful, IsCarefulInCrash, entries_after};
ghost use Rattle.folder_system.specs.Place.{moving, refusing, copying, Refusal, Settling, Settled, IsHalted, IsPlaced, BeginsCarefully};
ghost use Rattle.folder_system.specs.declared.folder.Attributes.{Attributes};
ghost use Rattle.folder_system.specs.declared.folder.Found.{Found};
ghost use Rattle.folder_system.specs.declared.place.Place.{Place};

/// Calls that spare a name leave what stands there, and what a crash may leave there, at every moment.
pub fn spared()
    ensures { (name : List ℕ) (es : List Event) (w : Entries) (k : ℕ) →
        Spares name es → entries_after (take k es) w name ≡ w name }
{}

/// A name beside is another one.
pub fn names_differ()
    ensures { (name own : List ℕ) (n : ℕ) → own ≡ numbered name n → bytes_eq name own ≡ false }
{}

/// Until an output is opened in place none of the calls that begin it touches the named file, and the files are as
/// they were but for the one beside.
pub fn begun()
    ensures { (name : List ℕ) (place : Place) (fs : List File) (es : List Event) →
        IsPlaced name place fs es → BeginsCarefully name place fs es }
{}

/// An output that takes the name: before and after each call the named file is the old one or the whole new one,
/// and in the end the new one. A crash leaves no other either, where the output was synced; and only the new one
/// in the end, where the folder was synced too.
pub fn moved()
    ensures careful { (own name bytes : List ℕ) (seen : Found) (synced : Answer) (settled : Settling) → bytes_eq name own ≡ false
        → is_stored synced ≡ true → IsCareful name bytes (moving own name bytes seen synced settled) }
    ensures whole { (own name bytes : List ℕ) (seen : Found) (synced : Answer) (settled : Settling) (w : Entries) → bytes_eq name own ≡ false
        → is_stored synced ≡ true → (entries_after (moving own name bytes seen synced settled) w name).now ≡ Whole bytes }
    ensures crash { (own name bytes : List ℕ) (seen : Found) (settled : Settling) → bytes_eq name own ≡ false
        → IsCarefulInCrash name bytes (moving own name bytes seen None settled) }
    ensures durable { (own name bytes : List ℕ) (seen : Found) (w : Entries) → bytes_eq name own ≡ false
        → (entries_after (moving own name bytes seen None (Settled None)) w name).left ≡ Whole bytes ∷ [] }
    ensures files { (own name bytes : List ℕ) (seen : Found) (synced : Answer) (settled : Settling) (fs : List File) → is_stored synced ≡ true
        → files_after (moving own name bytes seen synced settled) fs ≡ with_file name bytes (without own fs) }
{}

/// An output whose name is held, or that is unlike the old file, or another than was found before stands there: until it is copied the named file is the old one,
/// and in the end it has what was written.
pub fn copied()
    ensures refused { (own name bytes : List ℕ) (synced : Answer) (why : Refusal) → bytes_eq name own ≡ false
        → Spares name (refusing own name bytes synced why) }
    ensures whole { (name bytes : List ℕ) (stored : Answer) (w : Entries) → is_stored stored ≡ true
        → (entries_after (copying name bytes stored) w name).now ≡ Whole bytes }
    ensures removed { (own name : List ℕ) (removed : Answer) → bytes_eq name own ≡ false
        → Spares name (Removed own removed ∷ []) }
{}

/// An output that is halted and taken away leaves the named file alone.
pub fn halted()
    ensures { (old : Option Attributes) (takes : Bool) (own name bytes : List ℕ) (es : List Event) (removed : Answer) → bytes_eq name own ≡ false
        → IsHalted old takes own name bytes [] es → Spares name (es ++ Removed own removed ∷ []) }
{}
