// The printed answers of the calls that list rows. Each row has the names of the file, which is opened once more for them.
#![tactic(auto)]

ghost use Rattle.std.specs.Prelude.{◌*◌, ◌≤◌, length};
ghost use Rattle.names.specs.Table.{Table};

use model::{Ordered, Verdict, Why};
use std::io::{self, ErrorKind, Write};

// Prints rows, of reasons or of the check, with the names of a table.
fn print_named<W: Write>(
    writer: &mut W,
    file: &[u8],
    names: &[u32],
    named: usize,
    rows: &[u32],
    count: usize,
    reasons: bool,
) -> io::Result<()>
    requires { Table file.now names.now named × (2 * count ≤ length rows.now) }
{
    let mut starts = [0u32; 65536];
    let mut text = [0u8; 196736];
    printing::print_rows(
        writer,
        file,
        names,
        named,
        rows,
        count,
        reasons,
        &mut starts,
        &mut text,
    )
}

// Prints rows that stand in words, of reasons or of the check.
fn print_rows<W: Write>(
    writer: &mut W,
    file: &[u8],
    rows: &[u32],
    count: usize,
    reasons: bool,
) -> io::Result<()>
    requires { 2 * count ≤ length rows.now }
{
    let mut w0 = [0u32; model::WORKING_WORDS];
    let mut w1 = [0u32; model::WORKING_WORDS];
    let mut w2 = [0u32; model::WORKING_WORDS];
    let mut w3 = [0u32; model::WORKING_WORDS];
    let mut w4 = [0u32; model::WORKING_WORDS];
    let mut w5 = [0u32; model::WORKING_WORDS];
    match front::open_file(file, &mut w0, &mut w1, &mut w2, &mut w3, &mut w4, &mut w5) {
        Ok(k) => print_named(writer, file, &w0, k.names, rows, count, reasons),
        // A file whose rows were found is not refused.
        Err(_) => Err(ErrorKind::InvalidData.into()),
    }
}

// Prints rows of reasons and the two counts.
fn print_reasons<W: Write>(
    writer: &mut W,
    file: &[u8],
    rows: &[u32],
    count: usize,
    met: usize,
) -> io::Result<()>
    requires { 2 * count ≤ length rows.now }
{
    print_rows(writer, file, rows, count, true)?;
    printing::print_count(writer, b"met", met)?;
    printing::print_count(writer, b"rows", count)
}

// Prints what the call of reasons comes to, its rows in words.
pub fn print_why<W: Write>(writer: &mut W, file: &[u8], w: Why, rows: &[u32]) -> io::Result<()>
    requires { 2 * w.rows ≤ length rows.now }
{
    let v = w.verdict;
    match v {
        Verdict::Accepted => print_reasons(writer, file, rows, w.rows, w.met),
        Verdict::Refused(r) => printing::print_refusal(writer, r, w.place),
    }
}

// Prints rows of the check and their count.
fn print_late<W: Write>(writer: &mut W, file: &[u8], rows: &[u32], count: usize) -> io::Result<()>
    requires { 2 * count ≤ length rows.now }
{
    print_rows(writer, file, rows, count, false)?;
    printing::print_count(writer, b"rows", count)
}

// Prints what the call of the check comes to, its rows in words.
pub fn print_order<W: Write>(
    writer: &mut W,
    file: &[u8],
    o: Ordered,
    rows: &[u32],
) -> io::Result<()>
    requires { 2 * o.rows ≤ length rows.now }
{
    let v = o.verdict;
    match v {
        Verdict::Accepted => print_late(writer, file, rows, o.rows),
        Verdict::Refused(r) => printing::print_refusal(writer, r, o.place),
    }
}
