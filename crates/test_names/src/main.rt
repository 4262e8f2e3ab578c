// Runs the functions of `names` on standard input. Each field that is a name is spelled and, where it ends in @tok, the part
// before that; a line `=` prints the names so far in byte order, each with its number and its head code, and starts a new
// table. Of a long table only some ranks are printed.
#![tactic(auto)]

ghost use Rattle.std.specs.Prelude.{◌≤◌, ◌<◌, ◌≡◌, length};
ghost use Rattle.model.specs.Reading.{most_names};
ghost use Rattle.text.specs.Parts.{Placed};
ghost use Rattle.names.specs.Table.{Table};
ghost use Rattle.test_names.specs.Counts.{count_after};

use names::Spelled;
use std::io::Write;
use text::Cursor;

// How many names the table has after a spelling.
#[tactic(auto, unfolding(crate::specs::Counts::count_after))]
fn grown(s: Spelled, named: usize) -> usize
    requires { named ≤ most_names }
    ensures { result ≡ count_after named s }
{
    match s {
        Spelled::New(_) => named + 1,
        Spelled::Known(_) | Spelled::Full => named,
    }
}

// Spells one field, if it is a name; answers how many names the table then has.
fn one_field(file: &[u8], table: &mut [u32], named: usize, start: usize, end: usize) -> usize
    requires { Table file.now table.old named × (start ≤ end) × (end ≤ length file.now) }
    ensures { Table file.now table.new result }
{
    let c = Cursor { at: start, end };
    match c.name(file) {
        Ok(part) => {
            let s = names::spell(file, table, named, part.start, part.end);
            grown(s, named)
        }
        Err(_) => named,
    }
}

// Spells one field and, where it ends in @tok, the part before that; answers how many names the table then has.
fn field_and_token(file: &[u8], table: &mut [u32], named: usize, start: usize, end: usize) -> usize
    requires { Table file.now table.old named × (start ≤ end) × (end ≤ length file.now) }
    ensures { Table file.now table.new result }
{
    let known = one_field(file, table, named, start, end);
    if end - start < 4 {
        return known;
    }
    if !text::ends_with(file, start, end, b"@tok") {
        return known;
    }
    let s = names::spell(file, table, known, start, end - 4);
    grown(s, known)
}

// Spells the fields of a line from a cursor on; answers how many names the table then has.
fn all_fields(file: &[u8], table: &mut [u32], named: usize, from: Cursor) -> usize
    requires { Table file.now table.old named × Placed file.now from }
    ensures { Table file.now table.new result }
{
    let mut known = named;
    let mut c = from;
    // Where a field ends is known once it is read, so no range counts the turns.
    while c.at <= c.end {
        match c.field(file) {
            Ok(part) => {
                known = field_and_token(file, table, known, part.start, part.end);
                c = part.next;
            }
            Err(_) => {
                return known;
            }
        }
    }
    known
}

// Prints the name of a number, with its head code. Here and below, where a write fails, what comes after it is written all the
// same.
fn put_name<W: Write>(out: &mut W, file: &[u8], table: &[u32], named: usize, n: usize)
    requires { Table file.now table.now named × (n < named) }
{
    let code = names::code_at(table, n);
    let _ = write!(out, "{n}");
    let _ = out.write_all(b" ");
    let _ = out.write_all(names::name_part(file, table, named, n));
    let _ = out.write_all(b" ");
    let _ = write!(out, "{code}");
    let _ = out.write_all(b"\n");
}

// Prints the names in byte order.
fn put_index<W: Write>(out: &mut W, file: &[u8], table: &[u32], named: usize)
    requires { Table file.now table.now named }
{
    let _ = out.write_all(b"names ");
    let _ = write!(out, "{named}");
    let _ = out.write_all(b"\n");
    for r in 0..named {
        if named < 120 || r % 256 == 255 {
            put_name(out, file, table, named, words::at(table, names::INDEX + r));
        }
    }
}

// One line: its fields, or a new table; answers how many names the table then has.
fn one_line<W: Write>(
    out: &mut W,
    file: &[u8],
    table: &mut [u32],
    named: usize,
    start: usize,
    end: usize,
) -> usize
    requires { Table file.now table.old named × (start ≤ end) × (end ≤ length file.now) }
    ensures { Table file.now table.new result }
{
    if text::same_text(file, start, end, b"=") {
        put_index(out, file, table, named);
        return 0;
    }
    all_fields(file, table, named, Cursor { at: start, end })
}

// All lines, from a table without names.
fn all_lines<W: Write>(out: &mut W, file: &[u8], table: &mut [u32])
    requires { Table file.now table.old 0 }
{
    let mut named: usize = 0;
    let mut from: usize = 0;
    // Names stand in the table by their places in the file, so a line is a place and no slice of its own.
    while from < file.len() {
        let end = text::find(file, b'\n', from, file.len());
        named = one_line(out, file, table, named, from, end);
        from = end + 1;
    }
}

// Reads standard input; more than 65,535 bytes are not looked at.
fn main(rt: HostRuntime) {
    let mut file = [0u8; 65536];
    let n = cases::read_full(&mut rt.stdin(), &mut file);
    if model::MOST_BYTES < n {
        return;
    }
    let mut table = [0u32; 16384];
    all_lines(&mut rt.stdout(), &file[..n], &mut table);
}
