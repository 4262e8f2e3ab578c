// `why POSITION`: why each fact came along at a position, or the refusal.
ghost use Rattle.std.specs.Prelude.{◌≤◌, length};
ghost use Rattle.factfilter.specs.Explains.{row_words, Explains};

use crate::errors::{self, Error};
use model::Why;
use std::io::Write;

// The words of the rows that a call can list.
const ROW_WORDS: usize = 2 * model::MOST_ROWS;

// Tells the reasons at a position of a file, over working slices of its own and room for the rows of every file; the words of
// the rows go to a slice. Apart from `check_file`, since the two calls differ in what they are asked and answer.
fn explain_file(file: &[u8], position: usize, rows: &mut [u32]) -> Why
    requires { row_words ≤ length rows.old }
    ensures { Explains file.now position result rows.new }
{
    let mut w0 = [0u32; model::WORKING_WORDS];
    let mut w1 = [0u32; model::WORKING_WORDS];
    let mut w2 = [0u32; model::WORKING_WORDS];
    let mut w3 = [0u32; model::WORKING_WORDS];
    let mut w4 = [0u32; model::WORKING_WORDS];
    let mut w5 = [0u32; model::WORKING_WORDS];
    let w = explain::explain(
        file,
        position,
        &mut w0,
        &mut w1,
        &mut w2,
        &mut w3,
        &mut w4,
        &mut w5,
        model::MOST_ROWS,
    );
    words::copy(&w5, 0, rows, 0, 2 * w.rows);
    w
}

// Tells the reasons at a position of a file and prints them; a refusal is an error too.
pub fn run<W: Write>(writer: &mut W, file: &[u8], position: usize) -> Result<(), Error> {
    let mut rows = [0u32; ROW_WORDS];
    let w = explain_file(file, position, &mut rows);
    row_printing::print_why(writer, file, w, &rows)?;
    errors::told(w.verdict, w.place)
}
