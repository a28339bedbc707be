//! Bytes of a sheet with their place, and where a byte cuts them.

ghost use Rattle.std.specs.Prelude.{◌+◌, ◌^◌, ◌<◌, length};

/// Bytes of a sheet, with the place where they stand.
#[derive(Clone, Copy)]
pub struct Piece<'a> {
    /// The offset of the first byte in the sheet.
    pub place: usize,
    /// The bytes.
    pub bytes: &'a [u8],
    ghost inside: { place + length bytes.now < 2 ^ 64 },
}

impl<'a> Piece<'a> {
    ghost use Rattle.std.specs.Prelude.{◌≡◌, ◌∷◌, Some};
    ghost use Rattle.sheet.specs.Readers.{parts, seen};

    // What stands before the first such byte, and what stands after it, if the byte is there.
    pub(crate) fn cut(self, byte: u8) -> (Piece<'a>, Option<Piece<'a>>)
        ensures { parts byte (Some self.entry) ≡ seen result.0 ∷ parts byte result.1 }
    {
        let Piece { place, bytes } = self;
        let at = bytes.iter().take_while(|b| **b != byte).count();
        if at == bytes.len() {
            return (self, None);
        }
        let before = Piece {
            place,
            bytes: &bytes[..at],
        };
        let after = Piece {
            place: place + at + 1,
            bytes: &bytes[at + 1..],
        };
        (before, Some(after))
    }
}
