// `sweep`: the kept records of each ask by the second engine, with its passes, or the refusal.
ghost use Rattle.std.specs.Prelude.{◌≤◌, ◌≡◌, length, Err, OnOk};
ghost use Rattle.std.specs.Io.KnownBytes.{Appends};
ghost use Rattle.std.specs.List.{concat};
ghost use Rattle.model.specs.Lists.{sum};
ghost use Rattle.model.specs.Outcome.{Outcome, most_kept};
ghost use Rattle.model.specs.Text.{printed_sweep};
ghost use Rattle.printing.specs.Answers.{SweptTold};
ghost use Rattle.factfilter.specs.Sweeps.{Sweeps, swept_lines};
ghost use Rattle.factfilter.specs.declared.errors.Error.TheVariants.{Unwritten};

use crate::errors::{self, Error};
use model::Swept;
use std::io::{self, Write};

// Prints the lines of an answer.
fn print<W: Write>(writer: &mut W, file: &[u8], a: Swept, out: &[u32]) -> io::Result<()>
    requires { (length file.now ≤ 65536) × (sum a.kept ≤ length out.now) }
    ensures { (o : Outcome) → SweptTold a out.now o → OnOk result
        (Appends (W.contents writer.old) (W.contents writer.new) (concat (printed_sweep file.now o a.passes))) }
{
    let mut starts = [0u32; 65536];
    let mut text = [0u8; 65664];
    printing::print_sweep(writer, file, a, out, &mut starts, &mut text)
}

// Sweeps a file over working slices of its own and a result slice that is long enough for every accepted file. Apart
// from `filter_file`, since the two calls differ in what they answer.
fn sweep_file(file: &[u8], out: &mut [u32]) -> Swept
    requires { most_kept ≤ length out.old }
    ensures { Sweeps file.now out.old result out.new }
{
    let mut w0 = [0u32; model::WORKING_WORDS];
    let mut w1 = [0u32; model::WORKING_WORDS];
    let mut w2 = [0u32; model::WORKING_WORDS];
    let mut w3 = [0u32; model::WORKING_WORDS];
    let mut w4 = [0u32; model::WORKING_WORDS];
    let mut w5 = [0u32; model::WORKING_WORDS];
    sweep::sweep(
        file, &mut w0, &mut w1, &mut w2, &mut w3, &mut w4, &mut w5, out,
    )
}

// Sweeps a file and prints the answer.
fn answer<W: Write>(writer: &mut W, file: &[u8]) -> io::Result<Swept>
    requires { length file.now ≤ 65536 }
    ensures { OnOk result (Appends (W.contents writer.old) (W.contents writer.new)
        (concat (swept_lines file.now))) }
{
    let mut out = [0u32; model::MOST_KEPT];
    let a = sweep_file(file, &mut out);
    print(writer, file, a, &out)?;
    Ok(a)
}

// Sweeps a file and prints the answer; a refusal is an error too.
pub fn run<W: Write>(writer: &mut W, file: &[u8]) -> Result<(), Error>
    requires { length file.now ≤ 65536 }
    ensures { (result ≡ Err Unwritten → ⊥) → Appends (W.contents writer.old) (W.contents writer.new)
        (concat (swept_lines file.now)) }
{
    let a = answer(writer, file)?;
    errors::told(a.verdict, a.place)
}
