// Runs `gather_term` and `gather_list` of `gather` on deep, wide and shared tables, each built anew, and prints what each
// comes to.
#![tactic(auto)]

ghost use Rattle.std.specs.Prelude.{◌+◌, ◌≤◌, ◌<◌, length};
ghost use Rattle.test_gather.specs.Tables.{Blank, UnmarkedTable};

use std::io::Write;

// Prints a line: the name of the table, and how many names were gathered or that there was no room. Where a part cannot be
// written, the next one is written all the same.
fn show<W: Write>(out: &mut W, label: &[u8], walked: Option<usize>) {
    let _ = out.write_all(label);
    match walked {
        Some(n) => {
            let _ = write!(out, "{n}");
        }
        None => {
            let _ = out.write_all(b"full");
        }
    }
    let _ = out.write_all(b"\n");
}

// Pushes so many references to a term.
fn push_times(
    refs: &mut [u32],
    rows: &[u32],
    start: usize,
    used: usize,
    many: usize,
    to: usize,
    times: usize,
)
    requires { UnmarkedTable refs.old rows.now start used many × (used + times ≤ 16384) × (0 < times → to < many) }
    ensures { UnmarkedTable refs.new rows.now start (used + times) many }
{
    for i in 0..times {
        let _ = additions::push(refs, used + i, to, 0);
    }
}

// Adds a free name.
fn add_free(refs: &[u32], rows: &mut [u32], used: usize, many: usize, head: usize)
    requires { UnmarkedTable refs.now rows.old used used many × (many < 4096) × (head < 2048) }
    ensures { UnmarkedTable refs.now rows.new used used (many + 1) }
{
    let _ = additions::add_free(refs, rows, used, many, 2048, head);
}

// Adds a call with so many references to a term, or an op where the head is not the number of a name, as a row has it.
fn add_row_of(
    refs: &mut [u32],
    rows: &mut [u32],
    used: usize,
    many: usize,
    head: usize,
    to: usize,
    times: usize,
)
    requires { UnmarkedTable refs.old rows.old used used many × (many < 4096) × (used + times ≤ 16384) × (0 < times → to < many) }
    ensures { UnmarkedTable refs.new rows.new (used + times) (used + times) (many + 1) }
{
    push_times(refs, rows, used, used, many, to, times);
    if head < 2048 {
        let _ = additions::add_call(refs, rows, used, used + times, many, 2048, head);
        return;
    }
    let _ = additions::add_op(refs, rows, used, used + times, many, 2048, 4);
}

// Adds an `all` with a body and one group of one term.
fn add_all(
    refs: &mut [u32],
    rows: &mut [u32],
    used: usize,
    many: usize,
    body: usize,
    pattern: usize,
)
    requires { UnmarkedTable refs.old rows.old used used many × (many < 4096) × (used + 2 ≤ 16384) × (body < many) × (pattern < many) }
    ensures { UnmarkedTable refs.new rows.new (used + 2) (used + 2) (many + 1) }
{
    push_times(refs, rows, used, used, many, body, 1);
    push_times(refs, rows, used, used + 1, many, pattern, 1);
    let _ = additions::add_all(refs, rows, used, used + 2, many, 2048, 1);
}

// Adds the rows up to 4,096 to a table of one row, each with so many references to the row before, and its own number
// after `head` as its head; the references then.
fn add_rows(refs: &mut [u32], rows: &mut [u32], head: usize, times: usize) -> usize
    requires { UnmarkedTable refs.old rows.old 0 0 1 × (head ≤ 2048) × (times ≤ 2) }
    ensures { UnmarkedTable refs.new rows.new result result 4096 }
{
    let mut n = 0;
    for t in 1..4096 {
        add_row_of(refs, rows, n, t, head + t, t - 1, times);
        n += times;
    }
    n
}

// The tables.
#[derive(Clone, Copy)]
enum Shape {
    // 4,096 rows, each but the first with two references to the row before: without marks a walk would take 2^4095 steps
    Deep,
    // a chain of 4,096 rows, of which the first 2,048 have a name each
    Chain,
    // an op with 16,384 references to a free name
    Wide,
    // a call of name 5 with a reference to a free name
    Call,
    // an `all` with a free name as its body, and another in a group
    Patterns,
}

// How many references and rows a table has.
#[derive(Clone, Copy)]
struct Size {
    used: usize,
    many: usize,
}

// Builds a table in blank slices; its first row is a free name 0.
fn build(shape: Shape, refs: &mut [u32], rows: &mut [u32]) -> Size
    requires { (16384 ≤ length refs.old) × Blank 12288 rows.old }
    ensures { UnmarkedTable refs.new rows.new result.used result.used result.many × (0 < result.many) }
{
    add_free(refs, rows, 0, 0, 0);
    match shape {
        Shape::Deep => Size {
            used: add_rows(refs, rows, 2048, 2),
            many: 4096,
        },
        Shape::Chain => Size {
            used: add_rows(refs, rows, 0, 1),
            many: 4096,
        },
        Shape::Wide => {
            add_row_of(refs, rows, 0, 1, 2048, 0, 16384);
            Size {
                used: 16384,
                many: 2,
            }
        }
        Shape::Call => {
            add_row_of(refs, rows, 0, 1, 5, 0, 1);
            Size { used: 1, many: 2 }
        }
        Shape::Patterns => {
            add_free(refs, rows, 0, 1, 1);
            add_all(refs, rows, 0, 2, 0, 1);
            Size { used: 2, many: 3 }
        }
    }
}

// Gathers the names of the last term, with room for so many.
fn gather_last(
    names: &mut [u32],
    refs: &[u32],
    rows: &mut [u32],
    size: Size,
    room: usize,
) -> Option<usize>
    requires { Blank 8192 names.old × UnmarkedTable refs.now rows.old size.used size.used size.many × (0 < size.many) × (room ≤ 2048) }
{
    let mut lists = [0u32; 2048];
    let t = size.many - 1;
    gather::gather_term(
        names, refs, rows, &mut lists, 2048, size.used, size.many, t, 1, 0, room,
    )
}

// Gathers the names of all references.
fn gather_all(names: &mut [u32], refs: &[u32], rows: &mut [u32], size: Size) -> Option<usize>
    requires { Blank 8192 names.old × UnmarkedTable refs.now rows.old size.used size.used size.many }
{
    let mut lists = [0u32; 2048];
    gather::gather_list(
        names, refs, rows, &mut lists, 2048, size.used, size.many, 0, size.used, 1, 0, 2048,
    )
}

// Builds a table, with the word of a head code for name 5, and gathers the names of its references or, with room for so many,
// of its last term.
fn walked(shape: Shape, code: u32, listed: bool, room: usize) -> Option<usize>
    requires { room ≤ 2048 }
{
    let mut names = [0u32; 16384];
    let mut refs = [0u32; 16384];
    let mut rows = [0u32; 16384];
    names[names::CODE + 5] = code;
    let size = build(shape, &mut refs, &mut rows);
    if listed {
        gather_all(&mut names, &refs, &mut rows, size)
    } else {
        gather_last(&mut names, &refs, &mut rows, size, room)
    }
}

// One line for each table; in the sixth name 5 is excluded.
fn show_all<W: Write>(out: &mut W) {
    let excluded = names::EXCLUDED_MARK as u32;
    show(out, b"deep ", walked(Shape::Deep, 0, false, 2048));
    show(out, b"chain ", walked(Shape::Chain, 0, false, 2048));
    show(out, b"chain ", walked(Shape::Chain, 0, false, 2047));
    show(out, b"wide ", walked(Shape::Wide, 0, false, 2048));
    show(out, b"list ", walked(Shape::Wide, 0, true, 2048));
    show(
        out,
        b"excluded ",
        walked(Shape::Call, excluded, false, 2048),
    );
    show(out, b"patterns ", walked(Shape::Patterns, 0, false, 2048));
}

// Prints to standard output.
fn main(rt: HostRuntime) {
    show_all(&mut rt.stdout());
}
