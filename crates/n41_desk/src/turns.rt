/// What a desk's turn came to.
#[derive(Clone, Copy, Debug, PartialEq, Eq)]
pub enum Turn {
    /// What was wanted was done.
    Went,
    /// Nothing is wanted: the run has ended.
    Idle,
}
