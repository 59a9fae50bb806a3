// What holds of expressions that the checker takes.
ghost use Rattle.std.specs.Prelude.{◌≡◌};
ghost use Rattle.c_trees.specs.Expressions.{Tree};
ghost use Rattle.c_tree.specs.declared.typed.Typed.{Typed};
ghost use Rattle.c_typing.specs.Constants as constants;
ghost use Rattle.c_typing.specs.Expressions as typing;
ghost use Rattle.c_typing.specs.Expressions.{IsTyped, operand};
ghost use Rattle.c_judge.specs.Scope.{Scope};
ghost use Rattle.c_judge.specs.Answers.{Known};
ghost use Rattle.c_judge.specs.Judgement.{Judged, judged};
ghost use Rattle.c_judge.specs.Elaboration.{Elaborates};
ghost use Rattle.c_accepted.specs.Sources.{AreWords};
ghost use Rattle.c_accepted.specs.Reads.{Reads, IsRead};

/// The typed tree of an expression that the checker judges at its place in a file is well typed in the whole program: it is there the operand, and the constant expression, that it was judged to be.
pub fn judged_expressions_are_typed()
    ensures typed { (v : Scope) (s : typing.Scope) (e : Tree) (z : Typed) (j : Judged) → Reads v s → IsRead v s e → AreWords e → judged v e ≡ Known j → Elaborates v e z → IsTyped s z }
    ensures operand { (v : Scope) (s : typing.Scope) (e : Tree) (z : Typed) (j : Judged) → Reads v s → IsRead v s e → judged v e ≡ Known j → Elaborates v e z → operand s z ≡ j.operand }
    ensures constant { (v : Scope) (s : typing.Scope) (e : Tree) (z : Typed) (j : Judged) → Reads v s → IsRead v s e → judged v e ≡ Known j → Elaborates v e z → constants.constant s.defs z ≡ j.constant }
{}
