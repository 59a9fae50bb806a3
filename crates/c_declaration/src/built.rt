// Trees with their heights, grown until they are too high.
ghost use Rattle.std.specs.Prelude.{◌≡◌, max};
ghost use Rattle.c_declaration.specs.Grown.{taller, expr_of};

use c_trees::expression::Expr;

/// A tree and its height.
#[derive(Drop)]
pub struct Built<T> {
    pub height: u32,
    pub tree: T,
}

/// The greatest height of a tree.
pub const MOST_HEIGHT: u32 = 64;

/// The greater of two heights.
pub fn greater(a: u32, b: u32) -> u32
    ensures { result ≡ max a b }
{
    if a < b { b } else { a }
}

/// A tree one higher than its parts.
pub fn taller<T: Drop>(height: u32, tree: T) -> Option<Built<T>>
    ensures { result ≡ taller height tree }
{
    if height < MOST_HEIGHT {
        Some(Built {
            height: height + 1,
            tree,
        })
    } else {
        None
    }
}

/// An expression that was read.
pub fn expr_of(expr: Option<c_expr::Built>) -> Option<Built<Expr>>
    ensures { result ≡ expr_of expr }
{
    match expr {
        Some(built) => Some(Built {
            height: built.height,
            tree: built.expr.into_inner(),
        }),
        None => None,
    }
}
