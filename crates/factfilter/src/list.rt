// The plain use: the kept records of each ask, or the refusal.
ghost use Rattle.std.specs.Prelude.{◌≤◌, ◌≡◌, length, Err, OnOk};
ghost use Rattle.std.specs.Io.KnownBytes.{Appends};
ghost use Rattle.std.specs.List.{concat};
ghost use Rattle.model.specs.Outcome.{Outcome, most_kept, outcome};
ghost use Rattle.model.specs.Text.{printed};
ghost use Rattle.printing.specs.Answers.{Told};
ghost use Rattle.factfilter.specs.Filters.{Filters, own_slices};
ghost use Rattle.factfilter.specs.declared.errors.Error.TheVariants.{Unwritten};

use crate::errors::{self, Error};
use model::Answer;
use std::io::{self, Write};

// Prints the lines of an answer.
fn print<W: Write>(writer: &mut W, file: &[u8], a: Answer, out: &[u32]) -> io::Result<()>
    requires { (length file.now ≤ 65536) × ((o : Outcome) × Told a out.now o) }
    ensures { (o : Outcome) → Told a out.now o → OnOk result
        (Appends (W.contents writer.old) (W.contents writer.new) (concat (printed file.now o))) }
{
    let mut starts = [0u32; 65536];
    let mut text = [0u8; 65664];
    printing::print(writer, file, a, out, &mut starts, &mut text)
}

// Filters a file over working slices of its own and a result slice that is long enough for every accepted file. The six arrays
// stand here and in each other call, since a call takes six slices apart and there is no heap.
fn filter_file(file: &[u8], out: &mut [u32]) -> Answer
    requires { most_kept ≤ length out.old }
    ensures { Filters file.now out.old result out.new }
{
    let mut w0 = [0u32; model::WORKING_WORDS];
    let mut w1 = [0u32; model::WORKING_WORDS];
    let mut w2 = [0u32; model::WORKING_WORDS];
    let mut w3 = [0u32; model::WORKING_WORDS];
    let mut w4 = [0u32; model::WORKING_WORDS];
    let mut w5 = [0u32; model::WORKING_WORDS];
    filter::filter(
        file, &mut w0, &mut w1, &mut w2, &mut w3, &mut w4, &mut w5, out,
    )
}

// Filters a file and prints the answer.
fn answer<W: Write>(writer: &mut W, file: &[u8]) -> io::Result<Answer>
    requires { length file.now ≤ 65536 }
    ensures { OnOk result (Appends (W.contents writer.old) (W.contents writer.new)
        (concat (printed file.now (outcome file.now own_slices most_kept)))) }
{
    let mut out = [0u32; model::MOST_KEPT];
    let a = filter_file(file, &mut out);
    print(writer, file, a, &out)?;
    Ok(a)
}

// Filters a file and prints the answer; a refusal is an error too.
pub fn run<W: Write>(writer: &mut W, file: &[u8]) -> Result<(), Error>
    requires { length file.now ≤ 65536 }
    ensures { (result ≡ Err Unwritten → ⊥) → Appends (W.contents writer.old) (W.contents writer.new)
        (concat (printed file.now (outcome file.now own_slices most_kept))) }
{
    let a = answer(writer, file)?;
    errors::told(a.verdict, a.place)
}
