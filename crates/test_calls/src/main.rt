// Runs the cases of the further calls on standard input, one after the other, each over slices of its own lengths that hold
// other words before the call, and prints the answer of each and whether its slices came back as the documents say. The calls
// that list rows are run by their cores, which leave the rows in words of the run's slice.
#![tactic(auto)]

ghost use Rattle.std.specs.Prelude.{◌≡◌, ◌≤◌, length};
ghost use Rattle.model.specs.Lists.{sum};
ghost use Rattle.cases.specs.declared.TheConstants.{MOST_FILE, MOST_WORK};
ghost use Rattle.test_calls.specs.declared.TheConstants.{MOST_ROWS};

use cases::{Case, Lent};
use model::{Ordered, Swept, Why};
use std::io;
use std::io::Write;

// The rows that a working slice of a case can hold.
const MOST_ROWS: usize = 8200;

// Moves the rows of a call, of which there are so many, out of the run's slice, where zeros stand then.
fn take_rows(run: &mut [u32], count: usize, rows: &mut [u32])
    requires { (length run.old ≡ MOST_WORK) × (length rows.old ≡ MOST_WORK) × (count ≤ MOST_ROWS) }
{
    words::copy(run, 0, rows, 0, 2 * count);
    rows::clear_rows(run, count);
}

// Runs a case of the reasons and prints its answer and how the slices came back. The lent slices are arrays apart here and below,
// since a call takes six of them at once, which cannot be lent out of one struct.
fn run_why<W: Write>(writer: &mut W, case: Case<'_>) {
    let mut w0 = [0u32; cases::MOST_WORK];
    let mut w1 = [0u32; cases::MOST_WORK];
    let mut w2 = [0u32; cases::MOST_WORK];
    let mut w3 = [0u32; cases::MOST_WORK];
    let mut w4 = [0u32; cases::MOST_WORK];
    let mut w5 = [0u32; cases::MOST_WORK];
    cases::soil(&mut w0, 0);
    cases::soil(&mut w1, 1);
    cases::soil(&mut w2, 2);
    cases::soil(&mut w3, 3);
    cases::soil(&mut w4, 4);
    cases::soil(&mut w5, 5);
    let s = case.sizes;
    let why = explain::explain(
        case.file,
        s.position,
        &mut w0[..s.n0],
        &mut w1[..s.n1],
        &mut w2[..s.n2],
        &mut w3[..s.n3],
        &mut w4[..s.n4],
        &mut w5[..s.n5],
        s.room,
    );
    if MOST_ROWS < why.rows {
        let _ = writer.write_all(b"too many rows\n");
        return;
    }
    let mut rows = [0u32; cases::MOST_WORK];
    take_rows(&mut w5, why.rows, &mut rows);
    let _ = row_printing::print_why(writer, case.file, why, &rows);
    let lent = Lent {
        w0: &w0,
        w1: &w1,
        w2: &w2,
        w3: &w3,
        w4: &w4,
        w5: &w5,
        result: &[],
    };
    lent.print(writer, why.verdict, 0);
}

// Prints the lines of an answer of the sweep.
fn print_sweep<W: Write>(writer: &mut W, file: &[u8], a: Swept, out: &[u32]) -> io::Result<()>
    requires { (length file.now ≤ MOST_FILE) × (sum a.kept ≤ length out.now) }
{
    let mut starts = [0u32; cases::MOST_FILE];
    let mut text = [0u8; 131200];
    printing::print_sweep(writer, file, a, out, &mut starts, &mut text)
}

// Runs a case of the sweep and prints its answer and how the slices came back.
fn run_sweep<W: Write>(writer: &mut W, case: Case<'_>) {
    let mut w0 = [0u32; cases::MOST_WORK];
    let mut w1 = [0u32; cases::MOST_WORK];
    let mut w2 = [0u32; cases::MOST_WORK];
    let mut w3 = [0u32; cases::MOST_WORK];
    let mut w4 = [0u32; cases::MOST_WORK];
    let mut w5 = [0u32; cases::MOST_WORK];
    let mut result = [0u32; cases::MOST_ROOM];
    cases::soil(&mut w0, 0);
    cases::soil(&mut w1, 1);
    cases::soil(&mut w2, 2);
    cases::soil(&mut w3, 3);
    cases::soil(&mut w4, 4);
    cases::soil(&mut w5, 5);
    cases::soil(&mut result, 6);
    let s = case.sizes;
    let a = sweep::sweep(
        case.file,
        &mut w0[..s.n0],
        &mut w1[..s.n1],
        &mut w2[..s.n2],
        &mut w3[..s.n3],
        &mut w4[..s.n4],
        &mut w5[..s.n5],
        &mut result[..s.room],
    );
    let _ = print_sweep(writer, case.file, a, &result);
    let kept = printing::sum_counts(a.kept);
    let lent = Lent {
        w0: &w0,
        w1: &w1,
        w2: &w2,
        w3: &w3,
        w4: &w4,
        w5: &w5,
        result: &result,
    };
    lent.print(writer, a.verdict, kept);
}

// Runs a case of the check and prints its answer and how the slices came back.
fn run_order<W: Write>(writer: &mut W, case: Case<'_>) {
    let mut w0 = [0u32; cases::MOST_WORK];
    let mut w1 = [0u32; cases::MOST_WORK];
    let mut w2 = [0u32; cases::MOST_WORK];
    let mut w3 = [0u32; cases::MOST_WORK];
    let mut w4 = [0u32; cases::MOST_WORK];
    let mut w5 = [0u32; cases::MOST_WORK];
    cases::soil(&mut w0, 0);
    cases::soil(&mut w1, 1);
    cases::soil(&mut w2, 2);
    cases::soil(&mut w3, 3);
    cases::soil(&mut w4, 4);
    cases::soil(&mut w5, 5);
    let s = case.sizes;
    let order = precedence::check_order(
        case.file,
        &mut w0[..s.n0],
        &mut w1[..s.n1],
        &mut w2[..s.n2],
        &mut w3[..s.n3],
        &mut w4[..s.n4],
        &mut w5[..s.n5],
        s.room,
    );
    if MOST_ROWS < order.rows {
        let _ = writer.write_all(b"too many rows\n");
        return;
    }
    let mut rows = [0u32; cases::MOST_WORK];
    take_rows(&mut w5, order.rows, &mut rows);
    let _ = row_printing::print_order(writer, case.file, order, &rows);
    let lent = Lent {
        w0: &w0,
        w1: &w1,
        w2: &w2,
        w3: &w3,
        w4: &w4,
        w5: &w5,
        result: &[],
    };
    lent.print(writer, order.verdict, 0);
}

// Runs a case by the first word of its head line.
fn run<W: Write>(writer: &mut W, case: Case<'_>) {
    match case.call {
        b"why" => run_why(writer, case),
        b"sweep" => run_sweep(writer, case),
        b"order" => run_order(writer, case),
        _ => {
            let _ = writer.write_all(b"no such call\n");
        }
    }
}

// Runs the cases of standard input.
fn main(rt: HostRuntime) {
    cases::run_all(&mut rt.stdin(), &mut rt.stdout(), run);
}
