// Runs the cases on standard input, one after the other, each over slices of its own lengths that hold other words before the
// call, and prints the answer of each and whether its slices came back as document 01 says.
#![tactic(auto)]

ghost use Rattle.std.specs.Prelude.{◌≤◌, length};
ghost use Rattle.model.specs.Outcome.{Outcome};
ghost use Rattle.printing.specs.Answers.{Told};
ghost use Rattle.cases.specs.declared.TheConstants.{MOST_FILE};

use cases::{Case, Lent};
use model::Answer;
use std::io;
use std::io::Write;

// Prints the lines of an answer.
fn print<W: Write>(writer: &mut W, file: &[u8], a: Answer, out: &[u32]) -> io::Result<()>
    requires { (length file.now ≤ MOST_FILE) × ((o : Outcome) × Told a out.now o) }
{
    let mut starts = [0u32; cases::MOST_FILE];
    let mut text = [0u8; 131200];
    printing::print(writer, file, a, out, &mut starts, &mut text)
}

// Runs a case and prints its answer and how the slices came back, this even where a line of the answer cannot be written.
fn run<W: Write>(writer: &mut W, case: Case<'_>) {
    let mut w0 = [0u32; cases::MOST_WORK];
    let mut w1 = [0u32; cases::MOST_WORK];
    let mut w2 = [0u32; cases::MOST_WORK];
    let mut w3 = [0u32; cases::MOST_WORK];
    let mut w4 = [0u32; cases::MOST_WORK];
    let mut w5 = [0u32; cases::MOST_WORK];
    let mut result = [0u32; cases::MOST_ROOM];
    cases::soil(&mut w0, 0);
    cases::soil(&mut w1, 1);
    cases::soil(&mut w2, 2);
    cases::soil(&mut w3, 3);
    cases::soil(&mut w4, 4);
    cases::soil(&mut w5, 5);
    cases::soil(&mut result, 6);
    let s = case.sizes;
    let a = filter::filter(
        case.file,
        &mut w0[..s.n0],
        &mut w1[..s.n1],
        &mut w2[..s.n2],
        &mut w3[..s.n3],
        &mut w4[..s.n4],
        &mut w5[..s.n5],
        &mut result[..s.room],
    );
    let _ = print(writer, case.file, a, &result);
    let kept = printing::sum_counts(a.kept);
    let lent = Lent {
        w0: &w0,
        w1: &w1,
        w2: &w2,
        w3: &w3,
        w4: &w4,
        w5: &w5,
        result: &result,
    };
    lent.print(writer, a.verdict, kept);
}

// Runs the cases of standard input.
fn main(rt: HostRuntime) {
    cases::run_all(&mut rt.stdin(), &mut rt.stdout(), run);
}
