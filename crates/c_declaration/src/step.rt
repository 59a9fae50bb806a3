// What one token more gives.

/// What one token more gives: reading goes on, or it has ended.
#[derive(Drop)]
pub enum Step<S, A> {
    Goes(S),
    Ends(A),
}
