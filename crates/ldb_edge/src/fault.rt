// How a count of faults is raised.
ghost use Rattle.std.specs.Prelude.{length};
ghost use Rattle.ldb_edge.specs.Count.{Rose, CountsTaken};

/// Raises a count, which stands still at the end of its type.
pub fn raise(faults: &mut u64)
    ensures { Rose faults.old faults.new }
{
    *faults = faults.saturating_add(1);
}

/// Raises a count where nothing was taken of a piece that isn't empty.
pub fn raise_if_untaken(faults: &mut u64, count: usize, piece: &[u8])
    ensures { CountsTaken faults.old faults.new count (length piece.now) }
{
    if count == 0 && !piece.is_empty() {
        raise(faults);
    }
}
