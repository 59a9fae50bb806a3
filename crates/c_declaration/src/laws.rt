// What reading promises.
ghost use Rattle.c_declaration.specs.Laws.{DeclaratorEnds, DeclaratorIs, InitialEnds, InitialIs, LocalEnds, LocalIs, HeadEnds, FunctionEnds, FileIs, OneDeclarator, OneLocal, OneHead, OneFunction};

/// Declarators are read to their ends, whatever stands behind them, and nothing else is.
pub fn declarators_are_read()
    ensures ends { DeclaratorEnds }
    ensures is { DeclaratorIs }
{}

/// Initializers are read to their ends, and nothing else is.
pub fn initials_are_read()
    ensures ends { InitialEnds }
    ensures is { InitialIs }
{}

/// Declarations in a block are read to their ends, and nothing else is.
pub fn locals_are_read()
    ensures ends { LocalEnds }
    ensures is { LocalIs }
{}

/// Declarations at file scope, and what stands before the body of a function, are read to their ends, and nothing else is.
pub fn heads_are_read()
    ensures declaration { HeadEnds }
    ensures function { FunctionEnds }
    ensures is { FileIs }
{}

/// Tokens have one tree of at most 64 levels.
pub fn one_tree()
    ensures declarator { OneDeclarator }
    ensures local { OneLocal }
    ensures head { OneHead }
    ensures function { OneFunction }
{}
