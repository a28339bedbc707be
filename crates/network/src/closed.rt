//! What a closed network is.

use crate::draft::Draft;

/// A network that is wired: it only answers questions.
#[derive(Drop)]
pub struct Network {
    pub(crate) wiring: Draft,
}
