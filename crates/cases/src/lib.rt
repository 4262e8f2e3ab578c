// The cases of a test program: the head line of each, the slices that it lends, and a run of all cases of an input.
#![tactic(auto)]

mod heads;
mod lent;

ghost use Rattle.std.specs.Prelude.{◌≤◌, length};

pub use heads::{Case, NoCase, Sizes, begin_case};
pub use lent::{Lent, soil};
use std::io::{Read, Write};

// The longest file, working slice and result slice of a case.
pub const MOST_FILE: usize = 131072;

pub const MOST_WORK: usize = 16400;

pub const MOST_ROOM: usize = 16400;

// The bytes of an input that are held at a time: more than a case can have.
const WINDOW: usize = 262144;

// The most cases of a run.
const MOST_CASES: usize = 1000000;

// Reads an input to its end, or until the buffer is full; how many bytes those are. A read that fails is the end.
pub fn read_full<R: Read>(input: &mut R, buffer: &mut [u8]) -> usize
    ensures { result ≤ length buffer.new }
{
    let mut n: usize = 0;
    // A read takes as many bytes as it has, so no range counts the turns.
    while n < buffer.len() {
        match input.read(&mut buffer[n..]) {
            Ok(0) | Err(_) => break,
            Ok(more) => n += more,
        }
    }
    n
}

// Moves the bytes from a place up to another to the start of the window and reads more behind them; how many there are.
fn refill<R: Read>(input: &mut R, window: &mut [u8], from: usize, to: usize) -> usize
    requires { (from ≤ to) × (to ≤ length window.old) }
    ensures { result ≤ length window.old }
{
    let kept = to - from;
    window.copy_within(from..to, 0);
    let more = read_full(input, &mut window[kept..]);
    kept + more
}

// Runs the case at the start of the window; where the next one starts, or the end of the window where there is no case. Where a
// write fails, the run goes on with what comes after it.
fn run_one<W: Write, F: Fn(&mut W, Case<'_>)>(window: &[u8], out: &mut W, run: &F) -> usize
    requires { F.IsAlwaysCallable run.now }
    ensures { result ≤ length window.now }
{
    match begin_case(window) {
        Ok(case) => {
            let _ = out.write_all(b"case,");
            let _ = out.write_all(case.name);
            let _ = out.write_all(b"\n");
            let end = case.end;
            run(out, case);
            end
        }
        Err(lacks) => {
            let _ = write!(out, "{lacks}");
            window.len()
        }
    }
}

// Runs the cases of an input, one after the other, and prints the name of each before it is run.
pub fn run_all<R: Read, W: Write, F: Fn(&mut W, Case<'_>)>(input: &mut R, out: &mut W, run: F)
    requires { F.IsAlwaysCallable run }
{
    let mut window = [0u8; WINDOW];
    let mut from: usize = 0;
    let mut to: usize = 0;
    for _ in 0..MOST_CASES {
        to = refill(input, &mut window, from, to);
        if to == 0 {
            break;
        }
        from = run_one(&window[..to], out, &run);
    }
}
