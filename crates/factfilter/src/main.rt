// Document 01's program: reads a file from standard input and prints what a call comes to, the kept records of each ask or, by
// a word, document 02's further calls and the summaries of the facts; or the refusal. A refusal is said in words on standard
// error too.
#![tactic(auto)]

mod errors;
mod list;
mod order;
mod summaries;
mod swept;
mod why;

ghost use Rattle.std.specs.Prelude.{◌≤◌, ◌≡◌, length, Err, IfOk};
ghost use Rattle.std.specs.Io.KnownBytes.{Appends};
ghost use Rattle.std.specs.List.{concat};
ghost use Rattle.model.specs.Outcome.{most_kept, outcome};
ghost use Rattle.model.specs.Text.{printed};
ghost use Rattle.factfilter.specs.Filters.{own_slices};
ghost use Rattle.factfilter.specs.Sweeps.{swept_lines};
ghost use Rattle.factfilter.specs.declared.Call.TheVariants.{List, Sweep};
ghost use Rattle.factfilter.specs.declared.errors.Error.TheVariants.{Unwritten};

use errors::Error;
use std::env::{Env, FillError};
use std::io::{self, Input, Read, Write};
use text::Cursor;

// A call: the lists, the reasons at a position, the lists by the second engine, the check of definitions, or the summaries.
#[derive(Clone, Copy)]
enum Call {
    List,
    Why(usize),
    Sweep,
    Order,
    Summaries,
}

// Reads standard input to its end, or until the buffer is full; how many bytes those are. `read_full` of `cases`, which is of
// the test programs, takes a failed read for the end; here it is told.
fn read_input<R: Read>(input: &mut R, buffer: &mut [u8]) -> io::Result<usize>
    ensures { IfOk result (λ n. n ≤ length buffer.new) }
{
    let mut n: usize = 0;
    // A read takes as many bytes as it has, so no range counts the turns.
    while n < buffer.len() {
        let more = input.read(&mut buffer[n..])?;
        if more == 0 {
            return Ok(n);
        }
        n += more;
    }
    Ok(n)
}

// The call that a position of `why` asks for, a decimal number of at most 65,535.
fn position_of(word: &[u8]) -> Result<Call, Error>
    requires { length word.now ≤ 64 }
{
    let c = Cursor {
        at: 0,
        end: word.len(),
    };
    match c.number(word, text::MOST_NUMBER) {
        Ok((n, _)) => Ok(Call::Why(n as usize)),
        Err(_) => Err(Error::NoPosition),
    }
}

// Whether there is a word at a place, the program's name at 0.
fn has_word(rt: &impl Env, i: usize) -> bool {
    let mut word = [0u8; 64];
    match rt.arg(i, &mut word) {
        Ok(_) => true,
        Err(FillError::TooLong) => true,
        Err(FillError::NotPresent) => false,
    }
}

// Reads the word at a place; its length, 0 where there is none or it is longer than the buffer: both callers take an empty word for
// none that they know.
fn read_word(rt: &impl Env, i: usize, word: &mut [u8]) -> usize
    ensures { result ≤ length word.new }
{
    match rt.arg(i, word) {
        Ok(n) => n,
        Err(_) => 0,
    }
}

// What the position behind `why` asks for, the only word there.
fn ask_why(rt: &impl Env) -> Result<Call, Error> {
    if !has_word(rt, 2) || has_word(rt, 3) {
        return Err(Error::NoPosition);
    }
    let mut word = [0u8; 64];
    let n = read_word(rt, 2, &mut word);
    position_of(&word[..n])
}

// What the first word asks for.
fn ask_word(rt: &impl Env, word: &[u8]) -> Result<Call, Error> {
    let end = word.len();
    if text::same_text(word, 0, end, b"why") {
        return ask_why(rt);
    }
    if has_word(rt, 2) {
        return Err(Error::UnknownWord);
    }
    if text::same_text(word, 0, end, b"list") {
        return Ok(Call::List);
    }
    if text::same_text(word, 0, end, b"sweep") {
        return Ok(Call::Sweep);
    }
    if text::same_text(word, 0, end, b"order") {
        return Ok(Call::Order);
    }
    if text::same_text(word, 0, end, b"summaries") {
        return Ok(Call::Summaries);
    }
    Err(Error::UnknownWord)
}

// What the words after the program's name ask for.
fn read_command(rt: &impl Env) -> Result<Call, Error> {
    if !has_word(rt, 1) {
        return Ok(Call::List);
    }
    let mut word = [0u8; 64];
    let n = read_word(rt, 1, &mut word);
    ask_word(rt, &word[..n])
}

// Makes a call of a file and prints what it comes to; a refusal is an error too.
fn run<W: Write>(writer: &mut W, file: &[u8], c: Call) -> Result<(), Error>
    requires { length file.now ≤ 65536 }
    ensures listed { c ≡ List → (result ≡ Err Unwritten → ⊥) → Appends (W.contents writer.old) (W.contents writer.new)
        (concat (printed file.now (outcome file.now own_slices most_kept))) }
    ensures swept { c ≡ Sweep → (result ≡ Err Unwritten → ⊥) → Appends (W.contents writer.old) (W.contents writer.new)
        (concat (swept_lines file.now)) }
{
    match c {
        Call::List => list::run(writer, file),
        Call::Why(position) => why::run(writer, file, position),
        Call::Sweep => swept::run(writer, file),
        Call::Order => order::run(writer, file),
        Call::Summaries => summaries::run(writer, file),
    }
}

// Makes a call of the file on standard input.
fn answer<W: Write>(rt: &impl Input, writer: &mut W, c: Call) -> Result<(), Error> {
    let mut buffer = [0u8; 65536];
    let mut input = rt.reader();
    let Ok(n) = read_input(&mut input, &mut buffer) else {
        return Err(Error::Unread);
    };
    run(writer, &buffer[..n], c)
}

// Makes the call that the words ask for. The buffer is in `answer`: behind an early return it would be cleared twice.
fn serve<W: Write>(rt: &(impl Env + Input), writer: &mut W) -> Result<(), Error> {
    let c = read_command(rt)?;
    answer(rt, writer, c)
}

fn main(rt: HostRuntime) {
    if let Err(e) = serve(&rt, &mut rt.stdout()) {
        // Where standard error cannot be written, nothing more can be said.
        let _ = errors::say(&mut rt.stderr(), e);
    }
}
