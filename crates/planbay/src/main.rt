//! Reads a sheet and prints its account: a reply for each line.

#![tactic(auto)]

ghost use Rattle.std.specs.Prelude.{ℕ, List, IfOk, string_bytes};
ghost use Rattle.sheet.specs.Runs.{Account};

use input::read_sheet;
use sheet::account;

// The account of a sheet, the one that is read.
// Each program has its own: a function over both would take the call as a closure and promise what that promises, no more.
fn text(rt: &HostRuntime) -> anyhow::Result<String>
    ensures { IfOk result (λ text. (sheet : List ℕ) × Account sheet (string_bytes text)) }
{
    let sheet = read_sheet(rt)?;
    let text = account(rt.alloc(), sheet.as_slice())?;
    Ok(text)
}

fn main(rt: HostRuntime) -> anyhow::Result<()> {
    let text = text(&rt)?;
    rt.print(text.as_str())?;
    Ok(())
}
