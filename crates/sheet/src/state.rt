//! The state of a sheet.

use network::{Draft, Network};

/// The network of a sheet while its lines are answered.
#[derive(Drop)]
pub enum SheetState {
    /// The network is being wired.
    Wiring(Draft),
    /// The network is closed.
    Closed(Network),
}
