//! The account of a whole sheet.

ghost use Rattle.std.specs.Prelude.{IfOk, string_bytes};
ghost use Rattle.sheet.specs.Laws.{SheetLaws};
ghost use Rattle.sheet.specs.Runs.{Account};

use crate::reader::Reader;
use crate::refusal::{Refusal, SheetRefusal};
use crate::reply::Reply;
use crate::state::SheetState;
use std::alloc::{AllocError, Global};

/// The most bytes of a sheet.
pub const SHEET_MAX: usize = 32_768;

// The one reply to a sheet that is too long.
pub(crate) const TOO_LONG: Reply = Reply::Refused {
    refusal: Refusal::Sheet(SheetRefusal::TooLong),
    line: 0,
    place: 0,
};

/// The account of a sheet: a reply for each line, in order, each ended by byte 10; or want of memory.
#[tactic(auto, using(crate::proofs::Wholes::sheet_laws))]
pub fn account(heap: Global, sheet: &[u8]) -> Result<String, AllocError>
    ensures account { IfOk result (λ text. Account sheet.now (string_bytes text)) }
    ensures laws { SheetLaws }
{
    if sheet.len() > SHEET_MAX {
        return format!(in heap; "{TOO_LONG}\n");
    }
    let mut out = String::new(heap);
    let mut state = SheetState::new();
    for line in Reader::new(sheet) {
        let reply = state.respond(line);
        writeln!(out, "{reply}")?;
    }
    Ok(out)
}
