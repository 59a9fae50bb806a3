// What runs over a memory are.

ghost use Rattle.std.specs.Prelude.{◌≡◌, ◌≢◌, ℕ, Bool, List, None, Err};
ghost use Rattle.machine_state.specs.Regions.{Regions};
ghost use Rattle.ps_store.specs.declared.object.DictId.{DictId};
ghost use Rattle.ps_store.specs.declared.object.PsObj.{PsObj};
ghost use Rattle.ps_store.specs.StoreState.{StoreState};
ghost use Rattle.ps_step.specs.declared.fault.PsFault.TheVariants.{Link, NoMemory};
ghost use Rattle.ps_step.specs.declared.item.Item.{Item};
ghost use Rattle.ps_step.specs.declared.machine.PsCore.{PsCore};
ghost use Rattle.ps_run.specs.Runs.{Answer, Runs};
ghost use Rattle.ps_run.specs.Reaching.{RanShort};
ghost use Rattle.ps_terms.specs.Faring.{Comes};
ghost use Rattle.dialect_model.specs.Dial.{Dial};
ghost use Rattle.dialect_model.specs.Operating.{Operates};
ghost use Rattle.ps_ops.specs.Desk.{dial_of};
ghost use Rattle.ps_ops.specs.declared.dialect.Operators.{Operators};
ghost use Rattle.told_runs.specs.Told.{desk, target, Does, Tells, IsTold, IsNoBadReply, ReachesTold, FaresTold};

use abs_mem::AbsMem;

/// A run under a command's operators over any memory that tells its bytes, which ends by itself, with an error or with the steps
/// spent, is a run of the dialect over these bytes, in as many steps; and the memory tells the bytes that this run leaves. One that the
/// memory ended had no bad reply.
pub fn runs_are_told<W: AbsMem + Drop>()
    ensures told { (left left' : ℕ) (o o' : Operators W) (c c' : PsCore) (answer : Answer) (regions : Regions) (rest : W.Rest) → answer ≢ Err Link → answer ≢ Err NoMemory → Runs (Does W.seen W.leads) left o c answer left' o' c' → Tells W.seen o regions rest → IsTold W.seen rest regions left o c answer left' o' c' }
    ensures never { (left left' : ℕ) (o o' : Operators W) (c c' : PsCore) (regions : Regions) (rest : W.Rest) → Runs (Does W.seen W.leads) left o c (Err Link) left' o' c' → Tells W.seen o regions rest → IsNoBadReply o'.fault }
{}

/// Where memory ran out of such a run, no fault came, and the memory tells the bytes that a run of the dialect leaves which has gone
/// so far; and the run's calls led from one memory to the other.
pub fn short_runs_are_told<W: AbsMem + Drop>()
    ensures told { (left : ℕ) (o o' : Operators W) (c : PsCore) (regions : Regions) (rest : W.Rest) → RanShort (Does W.seen W.leads) left o c o' → Tells W.seen o regions rest → ReachesTold W.seen rest regions left o c o' }
    ensures faults { (left : ℕ) (o o' : Operators W) (c : PsCore) → RanShort (Does W.seen W.leads) left o c o' → (target W.seen o').faults ≡ (target W.seen o).faults }
    ensures calls { (left : ℕ) (o o' : Operators W) (c : PsCore) → RanShort (Does W.seen W.leads) left o c o' → W.leads o.memory.below.below.below None o'.memory.below.below.below }
{}

/// So each such run fares as the dialect's runs are proved to: a printer's run appends the text of the value that lies in the memory.
pub fn runs_fare_as_the_dialects<W: AbsMem + Drop>()
    ensures { (needs : Dial → PsCore → ℕ → Bool) (first : StoreState) (steps left left' : ℕ) (o o' : Operators W) (c c' : PsCore) (ds : List DictId) (dial : Dial) (operands : List PsObj) (items : List Item) (answer : Answer) (regions : Regions) (rest : W.Rest) → answer ≢ Err Link → answer ≢ Err NoMemory → Runs (Does W.seen W.leads) steps o c answer left' o' c' → Tells W.seen o regions rest → Comes Operates needs first steps (dial_of (desk o) regions) c ds left dial operands items → FaresTold W.seen needs first rest ds left dial operands items answer left' o' c' }
{}
