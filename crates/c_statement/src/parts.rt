// Statements, put together from their parts.
ghost use Rattle.std.specs.Prelude.{◌≡◌, IfOk, Some};
ghost use Rattle.c_trees.specs.Statements.{Empty, Break, Continue, Headed};
ghost use Rattle.c_trees.specs.StatementView.{statement_of};
ghost use Rattle.c_trees.specs.declared.statement.Head.TheVariants.{While as WhileHead, Switch as SwitchHead, Case as CaseHead, Default as DefaultHead};
ghost use Rattle.c_statement.specs.Parts.{kept, placed, statement_part, evaluate_of, return_of, if_of, if_else_of, headed_of, do_of, for_of, begun_of, declares_of, also_of, closed_of};

use crate::block::{Block, Opened};
use crate::built::{paired, taller};
use c_declaration::Built;
use c_expr::Boxed;
use c_lex::Place;
use c_trees::declaration::Local;
use c_trees::expression::Expr;
use c_trees::statement::{Head, Statement, StatementNode};
use std::alloc::{AllocError, Global};

/// A statement of this height.
fn statement_at(
    alloc: Global,
    height: u32,
    node: StatementNode,
) -> Result<Option<Built<Boxed<Statement>>>, AllocError>
    ensures { IfOk result (λ s. s ≡ Some (record { height = height; tree = statement_of node })) }
{
    let tree = Boxed::new(alloc, Statement { node })?;
    Ok(Some(Built { height, tree }))
}

/// A statement of no parts.
fn leaf(alloc: Global, node: StatementNode) -> Result<Option<Built<Boxed<Statement>>>, AllocError>
    ensures { IfOk result (λ s. s ≡ statement_part (statement_of node)) }
{
    statement_at(alloc, 1, node)
}

/// `;`
pub fn empty(alloc: Global, place: Place) -> Result<Option<Built<Boxed<Statement>>>, AllocError>
    ensures { IfOk result (λ s. s ≡ statement_part (Empty place)) }
{
    leaf(alloc, StatementNode::Empty(place))
}

/// `break ;`
pub fn break_of(alloc: Global, place: Place) -> Result<Option<Built<Boxed<Statement>>>, AllocError>
    ensures { IfOk result (λ s. s ≡ statement_part (Break place)) }
{
    leaf(alloc, StatementNode::Break(place))
}

/// `continue ;`
pub fn continue_of(
    alloc: Global,
    place: Place,
) -> Result<Option<Built<Boxed<Statement>>>, AllocError>
    ensures { IfOk result (λ s. s ≡ statement_part (Continue place)) }
{
    leaf(alloc, StatementNode::Continue(place))
}

/// `expr ;`
pub fn evaluate_of(
    alloc: Global,
    e: Option<Built<Boxed<Expr>>>,
) -> Result<Option<Built<Boxed<Statement>>>, AllocError>
    ensures { IfOk result (λ s. s ≡ evaluate_of e) }
{
    match taller(e) {
        Some(e) => statement_at(
            alloc,
            e.height,
            StatementNode::Evaluate(e.tree.into_inner()),
        ),
        None => Ok(None),
    }
}

/// An expression that may be absent.
fn unboxed(e: Option<Boxed<Expr>>) -> Option<Expr>
    ensures { result ≡ e }
{
    match e {
        Some(e) => Some(e.into_inner()),
        None => None,
    }
}

/// `return [expr] ;`
pub fn return_of(
    alloc: Global,
    place: Place,
    e: Option<Built<Option<Boxed<Expr>>>>,
) -> Result<Option<Built<Boxed<Statement>>>, AllocError>
    ensures { IfOk result (λ s. s ≡ return_of place e) }
{
    match taller(e) {
        Some(e) => statement_at(
            alloc,
            e.height,
            StatementNode::Return(place, unboxed(e.tree)),
        ),
        None => Ok(None),
    }
}

/// A part behind the keyword at this place.
pub fn placed<T: Drop>(place: Place, part: Option<Built<T>>) -> Option<Built<(Place, T)>>
    ensures { result ≡ placed place part }
{
    match part {
        Some(part) => Some(Built {
            height: part.height,
            tree: (place, part.tree),
        }),
        None => None,
    }
}

/// What stands before a statement, of this height.
fn head_at(alloc: Global, height: u32, head: Head) -> Result<Option<Built<Boxed<Head>>>, AllocError>
    ensures { IfOk result (λ h. h ≡ Some (record { height = height; tree = head })) }
{
    let tree = Boxed::new(alloc, head)?;
    Ok(Some(Built { height, tree }))
}

/// `default :`
pub fn default_head(alloc: Global, place: Place) -> Result<Option<Built<Boxed<Head>>>, AllocError>
    ensures { IfOk result (λ h. h ≡ Some (record { height = 0; tree = DefaultHead place })) }
{
    head_at(alloc, 0, Head::Default(place))
}

/// `while ( expr )`
pub fn while_head(
    alloc: Global,
    place: Place,
    e: Option<Built<Boxed<Expr>>>,
) -> Result<Option<Built<Boxed<Head>>>, AllocError>
    ensures { IfOk result (λ h. h ≡ kept (WhileHead place) e) }
{
    match e {
        Some(e) => head_at(alloc, e.height, Head::While(place, e.tree.into_inner())),
        None => Ok(None),
    }
}

/// `switch ( expr )`
pub fn switch_head(
    alloc: Global,
    place: Place,
    e: Option<Built<Boxed<Expr>>>,
) -> Result<Option<Built<Boxed<Head>>>, AllocError>
    ensures { IfOk result (λ h. h ≡ kept (SwitchHead place) e) }
{
    match e {
        Some(e) => head_at(alloc, e.height, Head::Switch(place, e.tree.into_inner())),
        None => Ok(None),
    }
}

/// `case constant :`
pub fn case_head(
    alloc: Global,
    place: Place,
    e: Option<Built<Boxed<Expr>>>,
) -> Result<Option<Built<Boxed<Head>>>, AllocError>
    ensures { IfOk result (λ h. h ≡ kept (CaseHead place) e) }
{
    match e {
        Some(e) => head_at(alloc, e.height, Head::Case(place, e.tree.into_inner())),
        None => Ok(None),
    }
}

/// `for ( [expr] ; [expr] ; [expr] )`
pub fn for_head(
    alloc: Global,
    before: Option<Built<((Place, Option<Boxed<Expr>>), Option<Boxed<Expr>>)>>,
    e: Option<Built<Option<Boxed<Expr>>>>,
) -> Result<Option<Built<Boxed<Head>>>, AllocError>
    ensures { IfOk result (λ h. h ≡ for_of before e) }
{
    match paired(before, e) {
        Some(parts) => {
            let (((place, first), second), third) = parts.tree;
            let (first, second) = (unboxed(first), unboxed(second));
            let head = Head::For(place, first, second, unboxed(third));
            head_at(alloc, parts.height, head)
        }
        None => Ok(None),
    }
}

/// `if ( expr ) statement`
pub fn if_of(
    alloc: Global,
    control: Option<Built<(Place, Boxed<Expr>)>>,
    body: Option<Built<Boxed<Statement>>>,
) -> Result<Option<Built<Boxed<Statement>>>, AllocError>
    ensures { IfOk result (λ s. s ≡ if_of control body) }
{
    match taller(paired(control, body)) {
        Some(parts) => {
            let ((place, value), body) = parts.tree;
            let value = value.into_inner();
            let node = StatementNode::If(place, value, body.into_box(), None);
            statement_at(alloc, parts.height, node)
        }
        None => Ok(None),
    }
}

/// `if ( expr ) statement else statement`
pub fn if_else_of(
    alloc: Global,
    before: Option<Built<((Place, Boxed<Expr>), Boxed<Statement>)>>,
    otherwise: Option<Built<Boxed<Statement>>>,
) -> Result<Option<Built<Boxed<Statement>>>, AllocError>
    ensures { IfOk result (λ s. s ≡ if_else_of before otherwise) }
{
    match taller(paired(before, otherwise)) {
        Some(parts) => {
            let (((place, value), then), otherwise) = parts.tree;
            let value = value.into_inner();
            let otherwise = Some(otherwise.into_box());
            let node = StatementNode::If(place, value, then.into_box(), otherwise);
            statement_at(alloc, parts.height, node)
        }
        None => Ok(None),
    }
}

/// A loop, a `switch` or a labeled statement.
fn headed(head: Head, body: Box<Statement>) -> StatementNode
    ensures { statement_of result ≡ Headed head body.value }
{
    match head {
        Head::While(place, e) => StatementNode::While(place, e, body),
        Head::For(place, first, second, third) => StatementNode::For(
            place, first, second, third, body,
        ),
        Head::Switch(place, e) => StatementNode::Switch(place, e, body),
        Head::Case(place, e) => StatementNode::Case(place, e, body),
        Head::Default(place) => StatementNode::Default(place, body),
    }
}

/// A loop, a `switch` or a labeled statement, unless it is too high.
pub fn headed_of(
    alloc: Global,
    head: Option<Built<Boxed<Head>>>,
    body: Option<Built<Boxed<Statement>>>,
) -> Result<Option<Built<Boxed<Statement>>>, AllocError>
    ensures { IfOk result (λ s. s ≡ headed_of head body) }
{
    match taller(paired(head, body)) {
        Some(parts) => {
            let (head, body) = parts.tree;
            let node = headed(head.into_inner(), body.into_box());
            statement_at(alloc, parts.height, node)
        }
        None => Ok(None),
    }
}

/// `do statement while ( expr ) ;`
pub fn do_of(
    alloc: Global,
    before: Option<Built<(Place, Boxed<Statement>)>>,
    e: Option<Built<Boxed<Expr>>>,
) -> Result<Option<Built<Boxed<Statement>>>, AllocError>
    ensures { IfOk result (λ s. s ≡ do_of before e) }
{
    match taller(paired(before, e)) {
        Some(parts) => {
            let ((place, body), value) = parts.tree;
            let node = StatementNode::Do(place, body.into_box(), value.into_inner());
            statement_at(alloc, parts.height, node)
        }
        None => Ok(None),
    }
}

/// `{`
pub fn begun_of(alloc: Global, place: Place) -> Option<Built<Opened>>
    ensures { result ≡ begun_of place }
{
    Some(Built {
        height: 0,
        tree: Opened::new(alloc, place),
    })
}

/// A block with a declaration more.
pub fn declares_of(
    block: Option<Built<Opened>>,
    local: Option<Built<Local>>,
) -> Result<Option<Built<Opened>>, AllocError>
    ensures { IfOk result (λ b. b ≡ declares_of block local) }
{
    match paired(block, taller(local)) {
        Some(parts) => {
            let (block, local) = parts.tree;
            Ok(Some(Built {
                height: parts.height,
                tree: block.with_local(local)?,
            }))
        }
        None => Ok(None),
    }
}

/// A block behind its declarations.
pub fn block_of(alloc: Global, opened: Option<Built<Opened>>) -> Option<Built<Block>>
    ensures { result ≡ opened }
{
    match opened {
        Some(opened) => Some(Built {
            height: opened.height,
            tree: opened.tree.into_block(alloc),
        }),
        None => None,
    }
}

/// A block with a statement more.
pub fn also_of(
    block: Option<Built<Block>>,
    statement: Option<Built<Boxed<Statement>>>,
) -> Result<Option<Built<Block>>, AllocError>
    ensures { IfOk result (λ b. b ≡ also_of block statement) }
{
    match paired(block, taller(statement)) {
        Some(parts) => {
            let (block, statement) = parts.tree;
            Ok(Some(Built {
                height: parts.height,
                tree: block.with_statement(statement.into_inner())?,
            }))
        }
        None => Ok(None),
    }
}

/// A block with its `}`.
pub fn closed_of(
    alloc: Global,
    block: Option<Built<Block>>,
    end: Place,
) -> Result<Option<Built<Boxed<Statement>>>, AllocError>
    ensures { IfOk result (λ s. s ≡ closed_of block end) }
{
    match taller(block) {
        Some(block) => Ok(Some(Built {
            height: block.height,
            tree: Boxed::new(alloc, block.tree.closed(end))?,
        })),
        None => Ok(None),
    }
}
