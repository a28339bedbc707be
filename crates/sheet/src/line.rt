//! A line of a sheet.

use crate::piece::Piece;

/// A line of a sheet, without the byte that ends it.
#[derive(Clone, Copy)]
pub struct Line<'a> {
    /// The line's number, counted from 1.
    pub number: usize,
    /// The bytes of the line.
    pub text: Piece<'a>,
}
