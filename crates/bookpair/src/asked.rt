//! Asking books by values.

ghost use Rattle.std.specs.Prelude.{◌≡◌, true};
ghost use Rattle.bookpair.specs.Asked.{Answers, Compares};

use crate::call::{Answer, Call};
use book::{Book, BookRefusal};

/// Makes a call of a book, and gives its answer, or why it refuses the call.
pub fn answer<B: Book>(book: &mut B, call: Call) -> Result<Answer, BookRefusal>
    ensures { Answers (B.Book.meaning book.old) call result (B.Book.meaning book.new) }
{
    let answer = match call {
        Call::Run { link, tick } => {
            let (free, ticks) = book.run(link, tick)?;
            Answer::Runs { free, ticks }
        }
        Call::Holder { link, tick } => Answer::Held(book.holder(link, tick)?),
        Call::Book {
            link,
            start,
            ticks,
            flow,
        } => {
            book.book(link, start, ticks, flow)?;
            Answer::Booked
        }
        Call::Release { link, start } => {
            let ticks = book.release(link, start)?;
            Answer::Released { ticks }
        }
    };
    Ok(answer)
}

/// Makes a call of two books, and tells whether their answers and then their counts are the same. Those of books
/// that mean the same are, and they mean the same after.
pub fn same_answers<L: Book, R: Book>(left: &mut L, right: &mut R, call: Call) -> bool
    ensures told { Compares (L.Book.meaning left.old) (R.Book.meaning right.old) call result (L.Book.meaning left.new) (R.Book.meaning right.new) }
    ensures alike { L.Book.meaning left.old ≡ R.Book.meaning right.old → result ≡ true }
    ensures after { L.Book.meaning left.old ≡ R.Book.meaning right.old → L.Book.meaning left.new ≡ R.Book.meaning right.new }
{
    answer(left, call) == answer(right, call) && left.count() == right.count()
}
