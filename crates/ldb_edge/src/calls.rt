// Which calls on an object in memory fail.
ghost use Rattle.std.specs.Prelude.{◌≡◌};
ghost use Rattle.ldb_edge.specs.Calls.{is_failing, next_call, no_calls};

/// The calls that an object in memory gets.
#[derive(Drop)]
pub struct Calls {
    /// The numbers of the calls that fail, counted from 0.
    pub fails: Vec<u64>,
    /// How many calls were made. It stands still at 2^64 - 1.
    pub made: u64,
}

impl Calls {
    /// No call was made, and these fail.
    pub fn new(fails: Vec<u64>) -> Self
        ensures { result ≡ no_calls fails }
    {
        Calls { fails, made: 0 }
    }

    /// Counts a call, and says whether it fails.
    pub fn count(&mut self) -> bool
        ensures fails { result ≡ is_failing self.old }
        ensures next { self.new ≡ next_call self.old }
    {
        let fails = self.fails.contains(&self.made);
        self.made = self.made.saturating_add(1);
        fails
    }
}
