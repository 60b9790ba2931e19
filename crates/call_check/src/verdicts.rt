/// The verdict of weighing. It is printed as `good`, `bad <port> <call>` or `bad end`.
#[derive(Clone, Copy, PartialEq, Eq)]
pub enum Weighed {
    /// No call is bad, and the image is that of the store after all changes.
    Good,
    /// The lowest port that has a bad call, and there the lowest one, both counted from 0. Nothing bounds the lists of
    /// version 1, so both are of the size of an index.
    Bad(usize, usize),
    /// No call is bad, and the image is another one.
    BadEnd,
}
