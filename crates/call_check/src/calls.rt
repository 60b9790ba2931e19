//! The calls of the ports' lists.
use model::Placed;

/// A call of the ports' lists: its list, and its index there.
#[derive(Clone, Copy)]
pub(crate) struct Call {
    pub placed: Placed,
    pub port: usize,
    pub index: usize,
}
