// `order`: what must come before what, or the refusal.
ghost use Rattle.std.specs.Prelude.{◌≤◌, length};
ghost use Rattle.factfilter.specs.Orders.{late_words, OrdersFile};

use crate::errors::{self, Error};
use model::Ordered;
use std::io::Write;

// The words of the rows that a call can list: two for each name use.
const ROW_WORDS: usize = 2 * model::MOST_USES;

// Checks the definitions of a file over working slices of its own and room for the rows of every file; the words of the rows go
// to a slice.
fn check_file(file: &[u8], rows: &mut [u32]) -> Ordered
    requires { late_words ≤ length rows.old }
    ensures { OrdersFile file.now result rows.new }
{
    let mut w0 = [0u32; model::WORKING_WORDS];
    let mut w1 = [0u32; model::WORKING_WORDS];
    let mut w2 = [0u32; model::WORKING_WORDS];
    let mut w3 = [0u32; model::WORKING_WORDS];
    let mut w4 = [0u32; model::WORKING_WORDS];
    let mut w5 = [0u32; model::WORKING_WORDS];
    let o = precedence::check_order(
        file,
        &mut w0,
        &mut w1,
        &mut w2,
        &mut w3,
        &mut w4,
        &mut w5,
        model::MOST_USES,
    );
    words::copy(&w5, 0, rows, 0, 2 * o.rows);
    o
}

// Checks the definitions of a file and prints the rows; a refusal is an error too.
pub fn run<W: Write>(writer: &mut W, file: &[u8]) -> Result<(), Error> {
    let mut rows = [0u32; ROW_WORDS];
    let o = check_file(file, &mut rows);
    row_printing::print_order(writer, file, o, &rows)?;
    errors::told(o.verdict, o.place)
}
