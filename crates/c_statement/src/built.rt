// Parts of statements with their heights, kept until they are too high. A part that is no whole tree has the greatest height of what it is made of.
ghost use Rattle.std.specs.Prelude.{◌≡◌, max};
ghost use Rattle.c_statement.specs.Parts.{taller, paired, expr_part, absent_part, present_part};

use c_declaration::Built;
use c_expr::Boxed;
use c_trees::expression::Expr;

/// The greatest height of a statement.
pub const MOST_HEIGHT: u32 = 64;

/// The greater of two heights.
fn greater(a: u32, b: u32) -> u32
    ensures { result ≡ max a b }
{
    if a < b { b } else { a }
}

/// Two parts of one tree.
pub fn paired<A: Drop, B: Drop>(a: Option<Built<A>>, b: Option<Built<B>>) -> Option<Built<(A, B)>>
    ensures { result ≡ paired a b }
{
    match a {
        Some(a) => match b {
            Some(b) => Some(Built {
                height: greater(a.height, b.height),
                tree: (a.tree, b.tree),
            }),
            None => None,
        },
        None => None,
    }
}

/// Parts of a tree that is one higher, unless it is too high.
pub fn taller<T: Drop>(a: Option<Built<T>>) -> Option<Built<T>>
    ensures { result ≡ taller a }
{
    match a {
        Some(a) => if a.height < MOST_HEIGHT {
            Some(Built {
                height: a.height + 1,
                tree: a.tree,
            })
        } else {
            None
        },
        None => None,
    }
}

/// An expression as a part.
pub fn expr_part(e: Option<c_expr::Built>) -> Option<Built<Boxed<Expr>>>
    ensures { result ≡ expr_part e }
{
    match e {
        Some(e) => Some(Built {
            height: e.height,
            tree: e.expr,
        }),
        None => None,
    }
}

/// No expression, where one may be absent.
pub fn absent_part() -> Option<Built<Option<Boxed<Expr>>>>
    ensures { result ≡ absent_part }
{
    Some(Built {
        height: 0,
        tree: None,
    })
}

/// An expression, where it may be absent.
pub fn present_part(e: Option<Built<Boxed<Expr>>>) -> Option<Built<Option<Boxed<Expr>>>>
    ensures { result ≡ present_part e }
{
    match e {
        Some(e) => Some(Built {
            height: e.height,
            tree: Some(e.tree),
        }),
        None => None,
    }
}
