// The book's entry: all bonds are checked, then valued one after the other; the lent slices are left all zero.

ghost use Rattle.treebasedbondpricer.specs.Slices.{lent_in, lent_out};
ghost use Rattle.bookchecks.specs.Lent.{book_in};
ghost use Rattle.bookvalue.specs.Entry.{BookEntered};

use crate::BookAnswer;
use crate::answers::{answer_of, refused_book};
use crate::values::all_values;
use bookchecks::Book;
use bookchecks::checks::checked_holdings;
use treebasedbondpricer::zero::{zero_floats, zero_numbers};

// Each bond's value, their sum in book order and each desk's node count, all or none. The lent slices are untouched after 39, 40 and a refusal of the checks, else all zero.
pub fn book_value(
    book: Book<'_>,
    nodes: &mut [i32],
    probabilities: &mut [f64],
    first_row: &mut [f64],
    second_row: &mut [f64],
) -> BookAnswer
    ensures { BookEntered (book_in book) result (lent_in nodes probabilities first_row second_row) (lent_out nodes probabilities first_row second_row) }
{
    match checked_holdings(book) {
        Ok(held) => {
            let size = book.fields.size();
            let valued = all_values(
                held,
                size,
                book.shared,
                book.lists,
                nodes,
                probabilities,
                first_row,
                second_row,
            );
            zero_numbers(nodes);
            zero_floats(probabilities);
            zero_floats(first_row);
            zero_floats(second_row);
            answer_of(valued, book.fields.desks, size)
        }
        Err(refused) => refused_book(refused),
    }
}
