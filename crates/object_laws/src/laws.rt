// What holds of the objects of slot code.

ghost use Rattle.std.specs.Prelude.{◌≡◌, ◌≤◌, ◌^◌, [], ◌∷◌, ◌++◌, length, true};
ghost use Rattle.std.specs.List.{AllByRecursion};
ghost use Rattle.machine_state.specs.declared.layout.TheConstants.{DATA};
ghost use Rattle.obj_file.specs.declared.object.Object.{Object};
ghost use Rattle.slot_ir.specs.declared.code.SlotCode.{SlotCode};
ghost use Rattle.slot_ir.specs.WellFormed.{IsWellFormed};
ghost use Rattle.flat_gen.specs.Codes.{flat_code};
ghost use Rattle.gen_parts.specs.Links.{text_names, static_names, AreOnce, IsInOrder};
ghost use Rattle.gen_parts.specs.Parts.{IsObjectOf};
ghost use Rattle.gen_parts.specs.Text.{program_insns};
ghost use Rattle.mips_isa.specs.Step.{is_transfer};
ghost use Rattle.mips_gen.specs.Insns.{no_op as mips_no_op};
ghost use Rattle.mips_gen.specs.Coding.{mips};
ghost use Rattle.sparc_gen.specs.Insns.{no_op as sparc_no_op};
ghost use Rattle.sparc_gen.specs.Coding.{sparc};
ghost use Rattle.link_image.specs.Conditions.{are_fitting, has_rows_inside, has_uses_inside, AreLinkable};
ghost use Rattle.object_laws.specs.Found.{IsStaticUse, IsGiven};
ghost use Rattle.object_laws.specs.Stops.{HasStops};
ghost use Rattle.object_laws.specs.Delayed.{is_delayed};

/// Each stopping point of each function lies in the function, at an instruction of the text that is the target's no-op, and whose word is. The
/// instruction before it lies in the function too and is no branch or jump, so a stopping point stands in no delay slot; on MIPS it is no
/// system call either.
pub fn stopping_points()
    ensures mips { (c : SlotCode) (o : Object) → IsWellFormed c → IsObjectOf mips c (flat_code 100 c) o → AllByRecursion (HasStops mips mips_no_op is_transfer (program_insns mips (flat_code 100 c)) o.text) o.functions }
    ensures sparc { (c : SlotCode) (o : Object) → IsWellFormed c → IsObjectOf sparc c (flat_code 132 c) o → AllByRecursion (HasStops sparc sparc_no_op is_delayed (program_insns sparc (flat_code 132 c)) o.text) o.functions }
{}

/// Each use in static objects is of a whole word, which lies at a multiple of 4 of one of these objects, and names one of them. Where a use
/// lies is counted through the bytes of all of them, one after another.
pub fn uses_in_static_objects()
    ensures mips { (c : SlotCode) (o : Object) → IsWellFormed c → IsObjectOf mips c (flat_code 100 c) o → AllByRecursion (IsStaticUse o.statics) o.uses }
    ensures sparc { (c : SlotCode) (o : Object) → IsWellFormed c → IsObjectOf sparc c (flat_code 132 c) o → AllByRecursion (IsStaticUse o.statics) o.uses }
{}

/// Each name that an object uses is one that it gives, to a place in its text or to a static object.
pub fn used_names()
    ensures mips { (c : SlotCode) (o : Object) → IsWellFormed c → IsObjectOf mips c (flat_code 100 c) o → AllByRecursion (IsGiven (text_names o.names ++ static_names o.statics)) o.uses }
    ensures sparc { (c : SlotCode) (o : Object) → IsWellFormed c → IsObjectOf sparc c (flat_code 132 c) o → AllByRecursion (IsGiven (text_names o.names ++ static_names o.statics)) o.uses }
{}

/// The static objects fit the data region, where a linker places them one behind the other, each at a multiple of 4 and 4 bytes or more apart.
pub fn static_objects_fit()
    ensures mips { (c : SlotCode) (o : Object) → IsWellFormed c → IsObjectOf mips c (flat_code 100 c) o → are_fitting DATA o.statics ≡ true }
    ensures sparc { (c : SlotCode) (o : Object) → IsWellFormed c → IsObjectOf sparc c (flat_code 132 c) o → are_fitting DATA o.statics ≡ true }
{}

/// Names, functions and stopping points lie in the text, as a linker asks: a name before its end. That they lie in order is what each
/// generator says of its object.
pub fn rows_lie_inside()
    ensures mips { (c : SlotCode) (o : Object) → IsWellFormed c → IsObjectOf mips c (flat_code 100 c) o → IsInOrder o → has_rows_inside o ≡ true }
    ensures sparc { (c : SlotCode) (o : Object) → IsWellFormed c → IsObjectOf sparc c (flat_code 132 c) o → IsInOrder o → has_rows_inside o ≡ true }
{}

/// Uses in the text end before it does, and uses in static objects are of words in these, as a linker asks.
pub fn uses_lie_inside()
    ensures mips { (c : SlotCode) (o : Object) → IsWellFormed c → IsObjectOf mips c (flat_code 100 c) o → IsInOrder o → has_uses_inside o ≡ true }
    ensures sparc { (c : SlotCode) (o : Object) → IsWellFormed c → IsObjectOf sparc c (flat_code 132 c) o → IsInOrder o → has_uses_inside o ≡ true }
{}

/// The object alone is linkable: nothing of what a linker asks is missing, if its text has at most 16,777,216 bytes. That its places lie in
/// order and its names are given once is what each generator says of its object.
pub fn objects_are_linkable()
    ensures mips { (c : SlotCode) (o : Object) → IsWellFormed c → IsObjectOf mips c (flat_code 100 c) o → IsInOrder o → AreOnce (text_names o.names ++ static_names o.statics) → length o.text ≤ 2 ^ 24 → AreLinkable (o ∷ []) }
    ensures sparc { (c : SlotCode) (o : Object) → IsWellFormed c → IsObjectOf sparc c (flat_code 132 c) o → IsInOrder o → AreOnce (text_names o.names ++ static_names o.statics) → length o.text ≤ 2 ^ 24 → AreLinkable (o ∷ []) }
{}
