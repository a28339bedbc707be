//! The network that a sheet wires, without the lines for the planner.

ghost use Rattle.std.specs.Prelude.{◌≡◌, [], ◌∷◌, ◌++◌, IfOk, Some, OnOk, Decides, string_bytes};
ghost use Rattle.network.specs.Views.{closed};
ghost use Rattle.sheet.specs.Readers.{seen_line};
ghost use Rattle.sheet.specs.Replies.{written};
ghost use Rattle.sheet.specs.Runs.{state_of};
ghost use Rattle.sheet.specs.Wirings.{IsReady, LeadsTo, WireAnswers, only_refused, wire_error_text};
ghost use Rattle.sheet.specs.declared.wiring.WireError.TheVariants.{OutOfMemory};

use crate::line::Line;
use crate::reader::Reader;
use crate::reply::Reply;
use crate::state::SheetState;
use crate::whole::{SHEET_MAX, TOO_LONG};
use network::Network;
use std::alloc::{AllocError, Global};
use std::error::Error;
use std::fmt;

/// Why a sheet wires no network.
#[derive(Debug, Drop)]
pub enum WireError {
    /// Lines were refused: the replies to them, each ended by byte 10.
    Refused(String),
    /// Memory was wanting.
    OutOfMemory(AllocError),
}

impl fmt::Display for WireError {
    ghost output = { λ e. Some (wire_error_text e) };

    fn fmt<W: fmt::Write>(&self, f: &mut fmt::Formatter<W>) -> fmt::Result {
        match self {
            WireError::Refused(replies) => f.write_str(replies.as_str()),
            WireError::OutOfMemory(_) => f.write_str("out of memory"),
        }
    }
}

impl Error for WireError {}

impl From<AllocError> for WireError {
    ghost from_gives = { λ a e. e ≡ OutOfMemory a };

    fn from(error: AllocError) -> WireError {
        WireError::OutOfMemory(error)
    }
}

impl SheetState {
    // The network, closed if it is not yet.
    pub(crate) fn into_network(self) -> Network
        ensures { closed result ≡ (state_of self).net }
    {
        match self {
            SheetState::Wiring(draft) => draft.close(),
            SheetState::Closed(network) => network,
        }
    }
}

// Whether a line is `READY` and nothing else.
fn is_ready(line: Line) -> bool
    ensures { Decides result (IsReady (seen_line line.entry)) }
{
    line.text.bytes == b"READY".as_slice()
}

// Appends a reply that refuses a line; `OK` is not written.
fn push_refused(out: &mut String, reply: Reply) -> Result<(), AllocError>
    ensures { OnOk result (string_bytes out.new ≡ string_bytes out.old ++ written (only_refused (reply ∷ []))) }
{
    match reply {
        Reply::Done => Ok(()),
        Reply::Refused { .. } => writeln!(out, "{reply}"),
    }
}

// Answers the lines of a sheet up to `READY`: the state after them, and the replies that refuse.
// A loop beside that of `account`: it stops at a line and leaves replies out, which two closures would not say plainer.
fn answer_wiring(heap: Global, sheet: &[u8]) -> Result<(SheetState, String), AllocError>
    ensures { IfOk result (λ p. LeadsTo sheet.now (state_of p.0) (string_bytes p.1)) }
{
    let mut refused = String::new(heap);
    let mut state = SheetState::new();
    for line in Reader::new(sheet) {
        let reply = state.respond(line);
        push_refused(&mut refused, reply)?;
        if is_ready(line) {
            return Ok((state, refused));
        }
    }
    Ok((state, refused))
}

/// The network that the lines of a sheet up to its `READY` wire, or the replies to those that are refused; or want of memory.
pub fn wire(heap: Global, sheet: &[u8]) -> Result<Network, WireError>
    ensures { WireAnswers sheet.now result }
{
    if sheet.len() > SHEET_MAX {
        let refused = format!(in heap; "{TOO_LONG}\n")?;
        return Err(WireError::Refused(refused));
    }
    let (state, refused) = answer_wiring(heap, sheet)?;
    if refused.is_empty() {
        Ok(state.into_network())
    } else {
        Err(WireError::Refused(refused))
    }
}
