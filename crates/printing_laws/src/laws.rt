// What holds of values that are printed.

ghost use Rattle.std.specs.Prelude.{◌≡◌, ◌≤◌, ◌+◌, ℕ, ◌++◌, ◌∷◌, [], List, Ok, Some, None, Option, min, codes, suc};
ghost use Rattle.ps_store.specs.declared.object.PsObj.{PsObj};
ghost use Rattle.ps_store.specs.declared.object.PsObj.TheVariants.{Int, Dict};
ghost use Rattle.ps_store.specs.declared.object.ArrayId.{ArrayId};
ghost use Rattle.ps_store.specs.declared.object.DictId.{DictId};
ghost use Rattle.ps_store.specs.declared.object.Part.TheVariants.{Command};
ghost use Rattle.ps_store.specs.StoreState.{StoreState};
ghost use Rattle.ps_store.specs.Store.{closed_part};
ghost use Rattle.ps_store.specs.Settled.{Settled};
ghost use Rattle.ps_step.specs.declared.item.Item.{Item};
ghost use Rattle.ps_step.specs.declared.item.Item.TheVariants.{Object};
ghost use Rattle.c_tree.specs.declared.types.CType.{CType};
ghost use Rattle.c_tree.specs.declared.types.StructDef.{StructDef};
ghost use Rattle.c_show.specs.Printed.{Showing, shown};
ghost use Rattle.ldb_words.specs.declared.kinds.Kind.{Kind};
ghost use Rattle.frame_bytes.specs.Bytes.{fetched};
ghost use Rattle.frame_bytes.specs.declared.frame.Frame.{Frame};
ghost use Rattle.frame_bytes.specs.declared.frame.Space.{Space};
ghost use Rattle.frame_bytes.specs.declared.frame.Space.TheVariants.{Memory, Registers, Immediate};
ghost use Rattle.ps_places.specs.Places.{place, space_named};
ghost use Rattle.ps_append.specs.Characters.{bytes_from, MOST_READ};
ghost use Rattle.ps_terms.specs.Machine.{Obj, Key};
ghost use Rattle.ps_terms.specs.Stands.{Are, Frames, core};
ghost use Rattle.ps_terms.specs.Printing.{word, Printing, Looked};
ghost use Rattle.ps_terms.specs.Faring.{shut, HoldsDicts, Comes};
ghost use Rattle.ps_print.specs.Prelude.{print_body};
ghost use Rattle.ps_print.specs.Words.{Holds, IsPrinter, RoomFor};
ghost use Rattle.ps_print.specs.Items.{Thing};
ghost use Rattle.ps_print.specs.Things.{print_steps, steps_within};
ghost use Rattle.dialect_model.specs.Dial.{Dial, InFrame, bytes_in};
ghost use Rattle.dialect_model.specs.Operating.{Operates};
ghost use Rattle.printing_laws.specs.Dialect.{append, needs};
ghost use Rattle.printing_laws.specs.Lookups.{Reached, Always, number_there, string_there, pointer_there};
ghost use Rattle.printing_laws.specs.Lies.{Lies};
ghost use Rattle.printing_laws.specs.Stays.{Above, Remains, StaysEmpty};

/// Under the debugger's dialect a run of a type's printer appends the text of the value that lies at a place, whichever functions of
/// units its operators have run on the way, and takes the place and the type.
///
/// The text is that of the leaves, as they are looked up: at most 1,000, and nothing is asked of what follows them. The run goes on
/// with the store that such operators made, and with exactly so many steps less, but for those that these operators took; or an
/// operator failed that needed functions of units; or these took more steps than would be left. Where a printer itself is executed,
/// as one that stands in the type, it is entered in one step more.
pub fn values_are_printed()
    ensures run { (s first : StoreState) (ds : List DictId) (digits : ArrayId) (d : Dial) (space : List ℕ) (sp : Space) (defs : List StructDef) (t : CType) (type : DictId) (place : ℕ) (xs : List Showing) (i : Thing) (left : ℕ) (operands o : List PsObj) (items under : List Item) → Above first → Holds s ds digits → Remains s ds first → space_named space ≡ Ok sp → Lies s first d sp defs 63 999 t type place xs i → RoomFor 400 o under → Are s operands (Obj (Dict type) ∷ Obj (Int (word place)) ∷ Key space ∷ []) → Frames s under items (print_body ∷ []) → Comes Operates needs first (print_steps i left) d (core first ds (operands ++ o) items) ds left (append d (shown defs t xs)) o under }
    ensures printer { (s first : StoreState) (ds : List DictId) (digits : ArrayId) (d : Dial) (space : List ℕ) (sp : Space) (defs : List StructDef) (t : CType) (type : DictId) (place : ℕ) (xs : List Showing) (i : Thing) (left : ℕ) (operands o : List PsObj) (x : PsObj) (under : List Item) → Above first → Holds s ds digits → Remains s ds first → space_named space ≡ Ok sp → Lies s first d sp defs 63 999 t type place xs i → RoomFor 400 o under → Are s operands (Obj (Dict type) ∷ Obj (Int (word place)) ∷ Key space ∷ []) → IsPrinter s x → Comes Operates needs first (suc (print_steps i left)) d (core first ds (operands ++ o) (Object x ∷ under)) ds left (append d (shown defs t xs)) o under }
    ensures steps { (s first : StoreState) (ds : List DictId) (d : Dial) (space : List ℕ) (sp : Space) (defs : List StructDef) (k : ℕ) (t : CType) (type : DictId) (place : ℕ) (xs : List Showing) (i : Thing) (left : ℕ) → Above first → Remains s ds first → space_named space ≡ Ok sp → Lies s first d sp defs k 999 t type place xs i → print_steps i left ≤ left + steps_within k }
{}

/// Functions of units that are run settle deferred entries of what is closed, and no more. So what is known of a closed store remains;
/// and so do the meanings of names where a command's own dictionary is on top, if that one stays empty. What operators leave behind
/// them is reached by running functions of units alone.
pub fn units_settle()
    ensures settles { (first now : StoreState) → Above first → Reached first now → Settled (closed_part first) (closed_part now) }
    ensures looked { (first now : StoreState) (j : ℕ) → Above first → Looked Operates needs first now j → Reached first now }
    ensures closed { (first : StoreState) (ds : List DictId) → Above first → HoldsDicts (shut first) ds → Remains (shut first) ds first }
    ensures own { (first : StoreState) (i : ℕ) (ds : List DictId) → Remains (shut first) ds first → StaysEmpty first (record { part = Command; index = i }) → Remains (shut first) (record { part = Command; index = i } ∷ ds) first }
{}

/// The debugger's dialect is one that prints: what it appends is more text, dropped where there is no target, and an operator needs a
/// unit where it says so.
pub fn dialect_prints()
    ensures { (prints : Printing Operates) × (prints.append ≡ append) × (prints.needs ≡ needs) }
{}

/// What is read in memory, in the immediate cell and in the registers of a frame that was found needs no unit: it is what the bytes say.
/// The null pointer's text is `0`.
pub fn places_are_read()
    ensures memory { (first : StoreState) (d : Dial) (at v : ℕ) (k : Kind) → fetched (bytes_in d None) Memory at k ≡ Some v → Always first (number_there d Memory at k) v }
    ensures cell { (first : StoreState) (d : Dial) (at v : ℕ) (k : Kind) → fetched (bytes_in d None) Immediate at k ≡ Some v → Always first (number_there d Immediate at k) v }
    ensures register { (first : StoreState) (d : Dial) (f : Frame) (scope : Option DictId) (at v : ℕ) (k : Kind) → d.standing ≡ InFrame f scope → fetched (bytes_in d (Some f)) Registers at k ≡ Some v → Always first (number_there d Registers at k) v }
    ensures string { (first : StoreState) (d : Dial) (at count : ℕ) (bs : List ℕ) → bytes_from (min count MOST_READ) (bytes_in d None) (place Memory at) ≡ Ok bs → Always first (string_there d Memory at count) bs }
    ensures null { (first : StoreState) (d : Dial) → Always first (pointer_there d 0) (codes "0") }
{}
