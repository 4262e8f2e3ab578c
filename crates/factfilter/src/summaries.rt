// `summaries`: what each fact waits for and the rule that says it, or the refusal.
ghost use Rattle.macros.specs.Macros.{Filled};
ghost use Rattle.reader.specs.Lines.{TermsStand};

use crate::errors::Error;
use model::{Counts, Refusal};
use std::io::{self, Write};

// Prints the summary of each fact of the tables and how many there are.
fn print<W: Write>(
    writer: &mut W,
    file: &[u8],
    names: &[u32],
    refs: &[u32],
    rows: &[u32],
    recs: &[u32],
    lists: &[u32],
    k: Counts,
) -> io::Result<()>
    requires { Filled file.now names.now recs.now lists.now k × TermsStand refs.now rows.now recs.now k }
{
    summary_printing::put_facts(writer, file, names, refs, rows, recs, lists, k, true)?;
    printing::print_count(writer, b"facts", summary_printing::count_facts(recs, k))
}

// Prints a refusal, which is an error too.
fn refuse<W: Write>(writer: &mut W, r: Refusal, place: u32) -> Result<(), Error> {
    printing::print_refusal(writer, r, place)?;
    Err(Error::Refused(r, place))
}

// Opens a file over working slices of its own and prints the summaries of its facts; a refusal is an error too.
pub fn run<W: Write>(writer: &mut W, file: &[u8]) -> Result<(), Error> {
    let mut w0 = [0u32; model::WORKING_WORDS];
    let mut w1 = [0u32; model::WORKING_WORDS];
    let mut w2 = [0u32; model::WORKING_WORDS];
    let mut w3 = [0u32; model::WORKING_WORDS];
    let mut w4 = [0u32; model::WORKING_WORDS];
    let mut w5 = [0u32; model::WORKING_WORDS];
    match front::open_file(file, &mut w0, &mut w1, &mut w2, &mut w3, &mut w4, &mut w5) {
        Ok(k) => Ok(print(writer, file, &w0, &w1, &w2, &w3, &w4, k)?),
        Err(r) => refuse(writer, r.refusal, r.place),
    }
}
