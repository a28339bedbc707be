//! Sheets of lines, read and answered.

#![tactic(auto)]

mod command;
mod execution;
mod keyword;
mod lexer;
mod line;
mod numeral;
mod piece;
mod reader;
mod reading;
mod refusal;
mod reply;
mod state;
mod token;
mod whole;
mod wiring;

pub use keyword::{Keyword, Stage};
pub use refusal::{Layer, Refusal, SheetRefusal};
pub use reply::Reply;
pub use whole::{SHEET_MAX, account};
pub use wiring::{WireError, wire};

// Examples worked out by hand from the rules.
#[cfg(test)]
mod tests {
    use crate::{WireError, account, wire};
    use std::test::Fail;

    // Where lines begin and end, what counts first, and the stages of a sheet.
    #[test]
    fn accounts(rt: HostRuntime) -> Result<(), Fail> {
        let cases = [
            ("", ""),
            ("\n", "NO S 61 1 0\n"),
            ("READY", "OK\n"),
            ("READY\n", "OK\n"),
            ("READY\n\nREADY", "OK\nNO S 61 2 6\nNO S 64 3 7\n"),
            (" ", "NO S 61 1 0\n"),
            ("LINK 1 2\nLINK 1 2\nLINK 2 1\n", "OK\nNO N 12 2 9\nOK\n"),
            (
                "LINK 1 3\nNET 3 10 1 64 1\nLINK 1 3\n",
                "NO N 11 1 0\nOK\nOK\n",
            ),
            ("FLOW 1 2 3 4 5 6 07\n", "NO S 63 1 17\n"),
            (
                "NET 0 0 0 0 0\nNET 0 0 0 0 10000000\n",
                "NO N 14 1 0\nNO S 63 2 26\n",
            ),
            (
                "READY\nGATES 1\nLINK 1 2\nFAULTS",
                "OK\nNO P 15 2 6\nNO S 64 3 14\nNO P 15 4 23\n",
            ),
        ];
        for (sheet, expected) in cases {
            let text = account(rt.alloc(), sheet.as_bytes())?;
            assert_eq!(rt; text.as_str(), expected);
        }
        Ok(())
    }

    // The longest sheet, one line of empty words, and one that is a byte longer.
    #[test]
    fn longest(rt: HostRuntime) -> Result<(), Fail> {
        let mut sheet = vec![in rt.alloc(); b' '; 32_768]?;
        let text = account(rt.alloc(), sheet.as_slice())?;
        assert_eq!(rt; text.as_str(), "NO S 61 1 0\n");
        sheet.push(b' ')?;
        let text = account(rt.alloc(), sheet.as_slice())?;
        assert_eq!(rt; text.as_str(), "NO S 65 0 0\n");
        Ok(())
    }

    // The wiring ends at READY; a refused line before it leaves no network.
    #[test]
    fn wirings(rt: HostRuntime) -> Result<(), Fail> {
        let cases = [
            ("LINK 1 2\nREADY\nLINK 1 2\nFLOW", 1, ""),
            ("LINK 2 1\nLINK 1 2", 2, ""),
            ("", 0, ""),
            (
                "LINK 1 2\nLINK 1 1\nREADY \nREADY\nSTOP",
                9,
                "NO N 11 2 9\nNO S 62 3 18\n",
            ),
        ];
        for (sheet, links, expected) in cases {
            match wire(rt.alloc(), sheet.as_bytes()) {
                Ok(network) => assert_eq!(rt; network.links(), links),
                Err(WireError::Refused(replies)) => assert_eq!(rt; replies.as_str(), expected),
                Err(WireError::OutOfMemory(error)) => Err(error)?,
            }
        }
        Ok(())
    }
}
