//! Reads a wiring sheet and prints an account of its network for whoever writes flow lines.

#![tactic(auto)]

ghost use Rattle.std.specs.Prelude.{ℕ, List, IfOk, string_bytes};
ghost use Rattle.wiring.specs.Texts.{WiringAccount};

use input::read_sheet;
use wiring::wiring_account;

// The account of the wiring of a sheet, the one that is read.
// Each program has its own: a function over both would take the call as a closure and promise what that promises, no more.
fn text(rt: &HostRuntime) -> anyhow::Result<String>
    ensures { IfOk result (λ text. (sheet : List ℕ) × WiringAccount sheet (string_bytes text)) }
{
    let sheet = read_sheet(rt)?;
    let text = wiring_account(rt.alloc(), sheet.as_slice())?;
    Ok(text)
}

fn main(rt: HostRuntime) -> anyhow::Result<()> {
    let text = text(&rt)?;
    rt.print(text.as_str())?;
    Ok(())
}
