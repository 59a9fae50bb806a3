//! What holds of the texts of tables.

ghost use Rattle.std.specs.Prelude.{◌≡◌, ℕ, ℤ, suc, ◌+◌, ◌≤◌, [], List, length};
ghost use Rattle.c_tree.specs.declared.types.CType.{CType};
ghost use Rattle.c_tree.specs.declared.types.StructDef.{StructDef};
ghost use Rattle.c_tree.specs.declared.types.Member.{Member};
ghost use Rattle.c_tree.specs.declared.rows.Point.{Point};
ghost use Rattle.c_tree.specs.declared.rows.SymbolRow.{SymbolRow};
ghost use Rattle.c_tree.specs.declared.rows.ObjectRow.{ObjectRow};
ghost use Rattle.c_tree.specs.declared.rows.UnitRow.{UnitRow};
ghost use Rattle.c_tree.specs.declared.rows.Function.{Function};
ghost use Rattle.c_tree.specs.declared.rows.Program.{Program};
ghost use Rattle.obj_file.specs.declared.object.FunctionRow.{FunctionRow};
ghost use Rattle.ps_text.specs.Code.{Code};
ghost use Rattle.ps_emit.specs.Terms.{◌⋯◌};
ghost use Rattle.ps_emit.specs.Types.{type_code, struct_code, filled_struct, tag_code, member_code};
ghost use Rattle.ps_emit.specs.Places.{Homes, homes, object_code, string_code};
ghost use Rattle.ps_emit.specs.Symbols.{symbol_code};
ghost use Rattle.ps_emit.specs.Functions.{point_code, saved_register, saved_code, points_code, function_code, functions_code, unit_code};
ghost use Rattle.ps_emit.specs.Table.{anchor_code};
ghost use Rattle.ps_emit.specs.Bounds.{of_type, of_member, of_symbol, of_object, per_point, per_saved, per_struct, per_string, function_alone, unit_alone};
ghost use Rattle.ps_emit.specs.Lengths.{size, written, IsWord, IsInteger, HasWords, IsPointRow, IsSymbolRow, IsMemberRow, IsStructRow, IsObjectRow, IsFunctionRow};

/// Each item of a table has at most so many bytes, those of a deferred string as they stand in it; and terms one behind the other have their bytes together.
pub fn items_are_short()
    ensures types { (t : CType) → HasWords t → written (type_code t) ≤ (of_type t).bytes }
    ensures points { (address : ℕ) (q : Point) → IsWord address → IsPointRow q → written (point_code address q) ≤ per_point.bytes }
    ensures registers { (r : ℕ) (offset : ℤ) → IsWord r → IsInteger offset → written (saved_register r offset) ≤ per_saved.bytes }
    ensures symbols { (fs : List FunctionRow) (h : Homes) (row : SymbolRow) (s : ℕ) → IsSymbolRow fs h s row → written (symbol_code fs h s row) ≤ (of_symbol row).bytes }
    ensures members { (m : Member) → IsMemberRow m → written (member_code m) ≤ (of_member m).bytes }
    ensures structs { (s : ℕ) (d : StructDef) → IsStructRow s d → written (struct_code d) + written (filled_struct s []) + written (tag_code s d) ≤ per_struct.bytes }
    ensures objects { (us : List UnitRow) (k address : ℕ) (o : ObjectRow) → IsObjectRow us k address o → size (object_code us k o) + size (anchor_code k address) ≤ (of_object o).bytes }
    ensures functions { (p : Program) (fs : List FunctionRow) (made : ℕ) (f : Function) (row : FunctionRow) → IsFunctionRow f row → written (function_code p fs made f row) ≤ function_alone.bytes + written (saved_code row.saved) + written (points_code p fs (homes row.locals f.locals) made f.points row.points) }
    ensures units { (p : Program) (fs : List FunctionRow) (u : UnitRow) → length u.file ≤ 255 → size (unit_code p fs u) ≤ unit_alone.bytes + written (functions_code p fs 0 u.functions) }
    ensures joined { (a b : Code) → written (a ⋯ b) ≡ written a + written b }
    ensures strings { (k anchor address : ℕ) (text : List ℕ) → IsWord k → IsWord anchor → IsWord address → IsWord (suc (length text)) → size (string_code k anchor text) + size (anchor_code anchor address) ≤ per_string.bytes }
{}
