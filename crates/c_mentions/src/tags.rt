// The tags of structs that a program mentions.
ghost use Rattle.std.specs.Prelude.{◌≡◌, ◌++◌, ◌<◌, ◌^◌, length, map, IfOk, OnOk};
ghost use Rattle.c_defs.specs.Numbers.{Finds};
ghost use Rattle.c_mentions.specs.Tags.{now, in_spec, in_tree, in_part, in_all, in_declarator, in_initial, in_declared, in_local, in_statement, in_member, in_file_spec, in_external, each_once};

use c_defs::Numbers;
use c_trees::declaration::{
    Declarator, DeclaratorNode, Declared, FileSpec, Initial, InitialNode, Local, MemberPart,
    Parameter, ParameterNode,
};
use c_trees::expression::{Abstract, Expr, Node, Spec, TypeName};
use c_trees::statement::{Statement, StatementNode};
use c_trees::unit::External;
use ldb_words::Text;
use std::alloc::{AllocError, Global};

/// The tag of how a type begins.
fn in_spec<'a>(found: &mut Vec<&'a Text>, spec: &'a Spec) -> Result<(), AllocError>
    ensures { OnOk result (map now found.new.items ≡ map now found.old.items ++ in_spec spec.now) }
{
    match spec {
        Spec::Struct(tag) => {
            found.push(tag)?;
            Ok(())
        }
        Spec::Char | Spec::Int | Spec::Unsigned | Spec::UnsignedInt | Spec::Void => Ok(()),
    }
}

/// Those of an expression.
#[cycle(tagging)]
#[tactic(auto, using(crate::proofs::Tagged::tree_call, crate::proofs::Measures::depth_call))]
pub fn in_tree<'a>(found: &mut Vec<&'a Text>, e: &'a Expr) -> Result<(), AllocError>
    ensures { OnOk result (map now found.new.items ≡ map now found.old.items ++ in_tree e.now) }
{
    match &e.node {
        Node::Leaf(_, _, _) => Ok(()),
        Node::Paren(_, a) => in_tree(found, a),
        Node::Index(_, a, b) => in_two(found, a, b),
        Node::Call(_, f, arguments) => {
            in_tree(found, f)?;
            in_arguments(found, arguments)
        }
        Node::Member(_, a, _, _, _) => in_tree(found, a),
        Node::After(_, a, _) => in_tree(found, a),
        Node::Prefix(_, _, a) => in_tree(found, a),
        Node::SizeofType(_, name) => in_type(found, name),
        Node::Cast(_, name, a) => {
            in_type(found, name)?;
            in_tree(found, a)
        }
        Node::Binary(_, _, a, b) => in_two(found, a, b),
        Node::Choice(_, c, a, b) => {
            in_tree(found, c)?;
            in_two(found, a, b)
        }
    }
}

/// Those of two expressions.
#[cycle(tagging)]
fn in_two<'a>(found: &mut Vec<&'a Text>, a: &'a Expr, b: &'a Expr) -> Result<(), AllocError>
    ensures { OnOk result (map now found.new.items ≡ map now found.old.items ++ (in_tree a.now ++ in_tree b.now)) }
{
    in_tree(found, a)?;
    in_tree(found, b)
}

/// Those of the arguments of a call.
#[cycle(tagging)]
#[tactic(auto, using(crate::proofs::Measures::argument_at))]
fn in_arguments<'a>(found: &mut Vec<&'a Text>, arguments: &'a [Expr]) -> Result<(), AllocError>
    ensures { OnOk result (map now found.new.items ≡ map now found.old.items ++ in_all in_tree arguments.now) }
{
    for argument in arguments {
        in_tree(found, argument)?;
    }
    Ok(())
}

/// Those of the name of a type.
#[cycle(tagging)]
fn in_type<'a>(found: &mut Vec<&'a Text>, name: &'a TypeName) -> Result<(), AllocError>
    ensures { OnOk result (map now found.new.items ≡ map now found.old.items ++ in_spec name.now.spec ++ in_tree name.now.declarator) }
{
    in_spec(found, &name.spec)?;
    in_abstract(found, &name.declarator)
}

/// Those of a declarator in a type's name.
#[cycle(tagging)]
#[tactic(auto, using(crate::proofs::Tagged::tree_bounds, crate::proofs::Tagged::nothing_behind, crate::proofs::Measures::depth_bounds))]
fn in_abstract<'a>(found: &mut Vec<&'a Text>, d: &'a Abstract) -> Result<(), AllocError>
    ensures { OnOk result (map now found.new.items ≡ map now found.old.items ++ in_tree d.now) }
{
    match &d.inner {
        None => in_bounds(found, &d.bounds),
        Some(inner) => {
            in_abstract(found, inner)?;
            in_bounds(found, &d.bounds)
        }
    }
}

/// Those of the bounds of an array.
#[cycle(tagging)]
#[tactic(auto, using(crate::proofs::Measures::bound_at))]
fn in_bounds<'a>(found: &mut Vec<&'a Text>, bounds: &'a [Option<Expr>]) -> Result<(), AllocError>
    ensures { OnOk result (map now found.new.items ≡ map now found.old.items ++ in_all (in_part in_tree) bounds.now) }
{
    for bound in bounds {
        in_part(found, bound)?;
    }
    Ok(())
}

/// Those of an expression, where there is one.
#[cycle(tagging)]
fn in_part<'a>(found: &mut Vec<&'a Text>, part: &'a Option<Expr>) -> Result<(), AllocError>
    ensures { OnOk result (map now found.new.items ≡ map now found.old.items ++ in_part in_tree part.now) }
{
    match part {
        None => Ok(()),
        Some(e) => in_tree(found, e),
    }
}

/// Those of a declarator.
#[cycle(tagging_declarators)]
#[tactic(auto, using(crate::proofs::Tagged::declarator_function, crate::proofs::Measures::depth_function))]
pub fn in_declarator<'a>(found: &mut Vec<&'a Text>, d: &'a Declarator) -> Result<(), AllocError>
    ensures { OnOk result (map now found.new.items ≡ map now found.old.items ++ in_declarator d.now) }
{
    match &d.node {
        DeclaratorNode::Name(_, _) => Ok(()),
        DeclaratorNode::Parens(_, d) => in_declarator(found, d),
        DeclaratorNode::Pointers(_, _, d) => in_declarator(found, d),
        DeclaratorNode::Array(_, d, bound) => {
            in_declarator(found, d)?;
            in_part(found, bound)
        }
        DeclaratorNode::Function(_, d, parameters) => {
            in_declarator(found, d)?;
            in_parameters(found, parameters)
        }
    }
}

/// Those of the parameters of a function.
#[cycle(tagging_declarators)]
#[tactic(auto, using(crate::proofs::Measures::parameter_at))]
fn in_parameters<'a>(
    found: &mut Vec<&'a Text>,
    parameters: &'a [Parameter],
) -> Result<(), AllocError>
    ensures { OnOk result (map now found.new.items ≡ map now found.old.items ++ in_all in_declarator parameters.now) }
{
    for parameter in parameters {
        in_parameter(found, parameter)?;
    }
    Ok(())
}

/// Those of a parameter.
#[cycle(tagging_declarators)]
fn in_parameter<'a>(found: &mut Vec<&'a Text>, p: &'a Parameter) -> Result<(), AllocError>
    ensures { OnOk result (map now found.new.items ≡ map now found.old.items ++ in_declarator p.now) }
{
    match &p.node {
        ParameterNode::Named(_, _, spec, d) => {
            in_spec(found, spec)?;
            in_declarator(found, d)
        }
        ParameterNode::Unnamed(_, spec, d) => {
            in_spec(found, spec)?;
            in_abstract(found, d)
        }
    }
}

/// Those of some declarators.
fn in_declarators<'a>(
    found: &mut Vec<&'a Text>,
    declarators: &'a [Declarator],
) -> Result<(), AllocError>
    ensures { OnOk result (map now found.new.items ≡ map now found.old.items ++ in_all in_declarator declarators.now) }
{
    for declarator in declarators {
        in_declarator(found, declarator)?;
    }
    Ok(())
}

/// Those of a part of a struct.
fn in_member<'a>(found: &mut Vec<&'a Text>, part: &'a MemberPart) -> Result<(), AllocError>
    ensures { OnOk result (map now found.new.items ≡ map now found.old.items ++ in_member part.now) }
{
    match part {
        MemberPart::Opens(_, tag) => {
            found.push(tag)?;
            Ok(())
        }
        MemberPart::Row(_, spec, declarators) => {
            in_spec(found, spec)?;
            in_declarators(found, declarators.as_slice())
        }
        MemberPart::Closes(declarators) => in_declarators(found, declarators.as_slice()),
    }
}

/// Those of some parts of a struct.
fn in_members<'a>(found: &mut Vec<&'a Text>, parts: &'a [MemberPart]) -> Result<(), AllocError>
    ensures { OnOk result (map now found.new.items ≡ map now found.old.items ++ in_all in_member parts.now) }
{
    for part in parts {
        in_member(found, part)?;
    }
    Ok(())
}

/// Those of how a type begins at file scope.
fn in_file_spec<'a>(found: &mut Vec<&'a Text>, spec: &'a FileSpec) -> Result<(), AllocError>
    ensures { OnOk result (map now found.new.items ≡ map now found.old.items ++ in_file_spec spec.now) }
{
    match spec {
        FileSpec::Named(spec) => in_spec(found, spec),
        FileSpec::Members(parts) => in_members(found, parts.as_slice()),
    }
}

/// Those of an initializer.
#[cycle(tagging_initials)]
#[tactic(auto, using(crate::proofs::Tagged::initial_braces, crate::proofs::Measures::depth_braces))]
fn in_initial<'a>(found: &mut Vec<&'a Text>, i: &'a Initial) -> Result<(), AllocError>
    ensures { OnOk result (map now found.new.items ≡ map now found.old.items ++ in_initial i.now) }
{
    match &i.node {
        InitialNode::Value(e) => in_tree(found, e),
        InitialNode::Braces(_, items) => in_items(found, items),
    }
}

/// Those of the items of a list in braces.
#[cycle(tagging_initials)]
#[tactic(auto, using(crate::proofs::Measures::item_at))]
fn in_items<'a>(found: &mut Vec<&'a Text>, items: &'a [Initial]) -> Result<(), AllocError>
    ensures { OnOk result (map now found.new.items ≡ map now found.old.items ++ in_all in_initial items.now) }
{
    for item in items {
        in_initial(found, item)?;
    }
    Ok(())
}

/// Those of a declared name.
fn in_declared<'a>(found: &mut Vec<&'a Text>, d: &'a Declared) -> Result<(), AllocError>
    ensures { OnOk result (map now found.new.items ≡ map now found.old.items ++ in_declared d.now) }
{
    in_declarator(found, &d.declarator)?;
    match &d.initial {
        None => Ok(()),
        Some(i) => in_initial(found, i),
    }
}

/// Those of some declared names.
fn in_names<'a>(found: &mut Vec<&'a Text>, names: &'a [Declared]) -> Result<(), AllocError>
    ensures { OnOk result (map now found.new.items ≡ map now found.old.items ++ in_all in_declared names.now) }
{
    for name in names {
        in_declared(found, name)?;
    }
    Ok(())
}

/// Those of a declaration in a block.
fn in_local<'a>(found: &mut Vec<&'a Text>, l: &'a Local) -> Result<(), AllocError>
    ensures { OnOk result (map now found.new.items ≡ map now found.old.items ++ in_local l.now) }
{
    in_spec(found, &l.spec)?;
    in_names(found, l.names.as_slice())
}

/// Those of some declarations in a block.
fn in_locals<'a>(found: &mut Vec<&'a Text>, locals: &'a [Local]) -> Result<(), AllocError>
    ensures { OnOk result (map now found.new.items ≡ map now found.old.items ++ in_all in_local locals.now) }
{
    for local in locals {
        in_local(found, local)?;
    }
    Ok(())
}

/// Those of a statement.
#[cycle(tagging_statements)]
#[tactic(auto, using(crate::proofs::Tagged::statement_block, crate::proofs::Measures::depth_block))]
fn in_statement<'a>(found: &mut Vec<&'a Text>, s: &'a Statement) -> Result<(), AllocError>
    ensures { OnOk result (map now found.new.items ≡ map now found.old.items ++ in_statement s.now) }
{
    match &s.node {
        StatementNode::Empty(_) | StatementNode::Break(_) | StatementNode::Continue(_) => Ok(()),
        StatementNode::Evaluate(e) => in_tree(found, e),
        StatementNode::Block(_, locals, statements, _) => {
            in_locals(found, locals.as_slice())?;
            in_statements(found, statements)
        }
        StatementNode::If(_, e, s, Some(other)) => {
            in_headed(found, e, s)?;
            in_statement(found, other)
        }
        StatementNode::If(_, e, s, None)
        | StatementNode::While(_, e, s)
        | StatementNode::Switch(_, e, s)
        | StatementNode::Case(_, e, s) => in_headed(found, e, s),
        StatementNode::Do(_, s, e) => {
            in_statement(found, s)?;
            in_tree(found, e)
        }
        StatementNode::For(_, i, e, k, s) => {
            in_three(found, i, e, k)?;
            in_statement(found, s)
        }
        StatementNode::Default(_, s) => in_statement(found, s),
        StatementNode::Return(_, e) => in_part(found, e),
    }
}

/// Those of an expression and of the statement behind it.
#[cycle(tagging_statements)]
fn in_headed<'a>(found: &mut Vec<&'a Text>, e: &'a Expr, s: &'a Statement) -> Result<(), AllocError>
    ensures { OnOk result (map now found.new.items ≡ map now found.old.items ++ (in_tree e.now ++ in_statement s.now)) }
{
    in_tree(found, e)?;
    in_statement(found, s)
}

/// Those of the expressions of a `for`.
fn in_three<'a>(
    found: &mut Vec<&'a Text>,
    i: &'a Option<Expr>,
    e: &'a Option<Expr>,
    k: &'a Option<Expr>,
) -> Result<(), AllocError>
    ensures { OnOk result (map now found.new.items ≡ map now found.old.items ++ (in_part in_tree i.now ++ in_part in_tree e.now ++ in_part in_tree k.now)) }
{
    in_part(found, i)?;
    in_part(found, e)?;
    in_part(found, k)
}

/// Those of some statements.
#[cycle(tagging_statements)]
#[tactic(auto, using(crate::proofs::Measures::statement_at))]
fn in_statements<'a>(
    found: &mut Vec<&'a Text>,
    statements: &'a [Statement],
) -> Result<(), AllocError>
    ensures { OnOk result (map now found.new.items ≡ map now found.old.items ++ in_all in_statement statements.now) }
{
    for statement in statements {
        in_statement(found, statement)?;
    }
    Ok(())
}

/// Those of an external declaration.
fn in_external<'a>(found: &mut Vec<&'a Text>, external: &'a External) -> Result<(), AllocError>
    ensures { OnOk result (map now found.new.items ≡ map now found.old.items ++ in_external external.now) }
{
    match external {
        External::Declaration(head) => {
            in_file_spec(found, &head.spec)?;
            in_names(found, head.names.as_slice())
        }
        External::Definition(head, body) => {
            in_file_spec(found, &head.spec)?;
            in_declarator(found, &head.declarator)?;
            in_statement(found, body)
        }
    }
}

/// Those of a file.
pub fn in_externals<'a>(
    found: &mut Vec<&'a Text>,
    externals: &'a [External],
) -> Result<(), AllocError>
    ensures { OnOk result (map now found.new.items ≡ map now found.old.items ++ in_all in_external externals.now) }
{
    for external in externals {
        in_external(found, external)?;
    }
    Ok(())
}
