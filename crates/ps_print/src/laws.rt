// What holds of the prelude.

ghost use Rattle.std.specs.Prelude.{◌≡◌, false, ℕ, ◌+◌, ◌≤◌, ◌++◌, ◌∷◌, [], List, suc};
ghost use Rattle.ps_store.specs.declared.object.PsObj.{PsObj};
ghost use Rattle.ps_store.specs.declared.object.PsObj.TheVariants.{Int, Dict};
ghost use Rattle.ps_store.specs.declared.object.ArrayId.{ArrayId};
ghost use Rattle.ps_store.specs.declared.object.DictId.{DictId};
ghost use Rattle.ps_store.specs.StoreState.{StoreState};
ghost use Rattle.ps_step.specs.declared.item.Item.{Item};
ghost use Rattle.ps_step.specs.declared.item.Item.TheVariants.{Object};
ghost use Rattle.c_tree.specs.declared.types.CType.{CType};
ghost use Rattle.c_tree.specs.declared.types.StructDef.{StructDef};
ghost use Rattle.c_show.specs.Printed.{Showing, shown};
ghost use Rattle.ps_terms.specs.Machine.{Obj, Key};
ghost use Rattle.ps_terms.specs.Stands.{Are, Frames, core};
ghost use Rattle.ps_terms.specs.Printing.{word, Printing, Looked};
ghost use Rattle.ps_terms.specs.Faring.{shut, HoldsDicts, Stays, Comes};
ghost use Rattle.ps_store.specs.Settled.{Settled};
ghost use Rattle.ps_store.specs.Store.{closed_part, new_store};
ghost use Rattle.ps_step.specs.declared.machine.PsCore.{PsCore};
ghost use Rattle.ps_print.specs.Prelude.{print_body, printers};
ghost use Rattle.ps_print.specs.Words.{Holds, executed_names, Lacks, IsPrinter, HasPrinters, RoomFor};
ghost use Rattle.ps_print.specs.Items.{Thing};
ghost use Rattle.ps_print.specs.Things.{print_steps, steps_within};
ghost use Rattle.ps_print.specs.Leads.{Leads};
ghost use Rattle.ps_print.specs.Loaded.{start, executed, loaded, digits_id};
ghost use Rattle.ps_terms.specs.Printing.{further};
ghost use Rattle.ps_print.specs.Laid.{Laid};

use ps_run::Dialect;

/// A run of a type's printer on a place appends the text of the value that lies there, and takes the place and the type. Nothing is
/// asked of what follows the 1,000th leaf.
///
/// Functions of units that an operator needs are run first. So the run goes on with the store that such operators made, and with
/// exactly so many steps less, but for those that these operators took; or an operator failed that needed functions of units; or
/// they took more steps than would be left. These steps are at most 202 for each of 1,000 items, and 123 more for each level of arrays and
/// structs, which is 7,951 for the deepest type. Where no operator needs any function of a unit the store is as it was.
/// Of what is closed, such operators settle deferred entries at most, so that what is closed stays known. Where a printer itself
/// is executed, as one that stands in the type, it is entered in one step more.
pub fn values_are_printed<D: Dialect>()
    ensures run { (prints : Printing D.operates) (s first : StoreState) (ds : List DictId) (digits : ArrayId) (d : D) (space : List ℕ) (defs : List StructDef) (t : CType) (type : DictId) (place : ℕ) (xs : List Showing) (i : Thing) (left : ℕ) (operands o : List PsObj) (items under : List Item) → Holds s ds digits → Stays D.operates prints s ds first → Laid D.operates prints s first d space defs 63 999 t type place xs i → RoomFor 400 o under → Are s operands (Obj (Dict type) ∷ Obj (Int (word place)) ∷ Key space ∷ []) → Frames s under items (print_body ∷ []) → Comes D.operates prints.needs first (print_steps i left) d (core first ds (operands ++ o) items) ds left (prints.append d (shown defs t xs)) o under }
    ensures printer { (prints : Printing D.operates) (s first : StoreState) (ds : List DictId) (digits : ArrayId) (d : D) (space : List ℕ) (defs : List StructDef) (t : CType) (type : DictId) (place : ℕ) (xs : List Showing) (i : Thing) (left : ℕ) (operands o : List PsObj) (x : PsObj) (under : List Item) → Holds s ds digits → Stays D.operates prints s ds first → Laid D.operates prints s first d space defs 63 999 t type place xs i → RoomFor 400 o under → Are s operands (Obj (Dict type) ∷ Obj (Int (word place)) ∷ Key space ∷ []) → IsPrinter s x → Comes D.operates prints.needs first (suc (print_steps i left)) d (core first ds (operands ++ o) (Object x ∷ under)) ds left (prints.append d (shown defs t xs)) o under }
    ensures at_once { (prints : Printing D.operates) (s : StoreState) (ds : List DictId) (digits : ArrayId) (d : D) (space : List ℕ) (defs : List StructDef) (t : CType) (type : DictId) (place : ℕ) (xs : List Showing) (i : Thing) (left : ℕ) (operands o : List PsObj) (items under : List Item) → ((d : D) (c : PsCore) (op j : ℕ) → Looked D.operates prints.needs s c.store j → prints.needs d c op ≡ false) → Holds s ds digits → Laid D.operates prints s s d space defs 63 999 t type place xs i → RoomFor 400 o under → Are s operands (Obj (Dict type) ∷ Obj (Int (word place)) ∷ Key space ∷ []) → Frames s under items (print_body ∷ []) → Leads D.operates (print_steps i left) d (core s ds (operands ++ o) items) left (prints.append d (shown defs t xs)) (core s ds o under) }
    ensures steps { (prints : Printing D.operates) (s first : StoreState) (d : D) (space : List ℕ) (defs : List StructDef) (t : CType) (type : DictId) (place : ℕ) (xs : List Showing) (i : Thing) (left : ℕ) → Laid D.operates prints s first d space defs 63 999 t type place xs i → print_steps i left ≤ left + 7951006 }
    ensures deep { (prints : Printing D.operates) (s first : StoreState) (d : D) (space : List ℕ) (defs : List StructDef) (k : ℕ) (t : CType) (type : DictId) (place : ℕ) (xs : List Showing) (i : Thing) (left : ℕ) → Laid D.operates prints s first d space defs k 999 t type place xs i → print_steps i left ≤ left + steps_within k }
    ensures settles { (prints : Printing D.operates) (first now : StoreState) (j : ℕ) → Looked D.operates prints.needs first now j → Settled (closed_part first) (closed_part now) }
    ensures stays { (prints : Printing D.operates) (first : StoreState) (ds : List DictId) → HoldsDicts (shut first) ds → Stays D.operates prints (shut first) ds first }
{}

/// A run of the prelude's text in a new state comes to its end in 75 steps, whatever the dialect, and where it is loaded its
/// words mean what its terms say, and each of the six printers' names means a procedure of the one body that prints a value.
///
/// So it is in each store behind, as a table and functions of units leave it: what is closed stays, but for deferred entries. There
/// the names mean the same where no dictionary that was put on the prelude's has one of them, which would hide it. The closed part
/// of such a store, taken alone, is one too.
pub fn prelude_is_loaded<D: Dialect>()
    ensures run { (left : ℕ) (d : D) → Leads D.operates (further 75 left) d start left d executed }
    ensures holds { Holds loaded.store loaded.dictionaries digits_id }
    ensures printers { HasPrinters loaded.store loaded.dictionaries }
    ensures holds_behind { (now : StoreState) (above : List DictId) → Settled (closed_part loaded.store) (closed_part now) → Lacks now above (executed_names digits_id) → Holds now (above ++ new_store.base) digits_id }
    ensures printers_behind { (now : StoreState) (above : List DictId) → Settled (closed_part loaded.store) (closed_part now) → Lacks now above printers → HasPrinters now (above ++ new_store.base) }
    ensures shut { (s : StoreState) → closed_part (shut s) ≡ closed_part s }
{}
