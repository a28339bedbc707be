//! Where a program's sheet comes from: the file that its argument names, or standard input.

#![tactic(auto)]

ghost use Rattle.std.specs.Prelude.{◌+◌, ◌≤◌, IfOk, vec_len};
ghost use Rattle.sheet.specs.Runs.{sheet_max};

use sheet::SHEET_MAX;
use std::alloc::Global;
use std::fs::File;
use std::io::Read;
use std::{env, io};

/// The most bytes that are read: one more than the longest sheet has, which tells that a sheet is too long.
pub const READ_MAX: usize = SHEET_MAX + 1;

// What a source holds, up to so many bytes.
fn read_some<R: Read + Drop>(heap: Global, source: R) -> io::Result<Vec<u8>>
    ensures { IfOk result (λ bytes. vec_len bytes ≤ sheet_max + 1) }
{
    let mut bytes = Vec::new(heap);
    let mut limited = source.take(READ_MAX as u64);
    limited.read_to_end(&mut bytes)?;
    bytes.truncate(READ_MAX);
    Ok(bytes)
}

/// The sheet in the file that the program's first argument names, or on standard input where there is none.
/// What is read is no matter of a contract; it is never more than `READ_MAX` bytes.
pub fn read_sheet(rt: &HostRuntime) -> anyhow::Result<Vec<u8>>
    ensures { IfOk result (λ bytes. vec_len bytes ≤ sheet_max + 1) }
{
    let heap = rt.alloc();
    let bytes = match env::args(rt)?.nth(1) {
        Some(path) => read_some(heap, File::open(rt, path.as_str())?)?,
        None => read_some(heap, rt.stdin())?,
    };
    Ok(bytes)
}
