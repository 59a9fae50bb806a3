// What reading a block promises.
ghost use Rattle.c_statement.specs.Laws.{BlockEnds, BlockIs};

/// Blocks are read to their `}`, and what is read to it is a block.
pub fn blocks_are_read()
    ensures ends { BlockEnds }
    ensures is { BlockIs }
{}
