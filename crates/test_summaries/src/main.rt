// Reads the files of document 01's form on standard input, one after the other, each from its `ask` line on, and prints the
// summary of each fact from the tables, without its name and its rule. A file that is refused prints `stop,LINE`.
#![tactic(auto)]

ghost use Rattle.std.specs.Prelude.{◌≤◌, length};
ghost use Rattle.model.specs.Outcome.{most_bytes};

use std::io;
use std::io::Write;

// Reads one file into new tables, and prints what it comes to.
fn one_file<W: Write>(out: &mut W, file: &[u8]) -> io::Result<()>
    requires { length file.now ≤ most_bytes }
{
    let mut names = [0u32; model::WORKING_WORDS];
    let mut refs = [0u32; model::WORKING_WORDS];
    let mut rows = [0u32; model::WORKING_WORDS];
    let mut recs = [0u32; model::WORKING_WORDS];
    let mut lists = [0u32; model::WORKING_WORDS];
    match reader::read_file(
        file, &mut names, &mut refs, &mut rows, &mut recs, &mut lists,
    ) {
        Ok(k) => summary_printing::put_facts(
            out, file, &names, &refs, &rows, &recs, &lists, k, false,
        ),
        Err(refused) => printing::print_count(out, b"stop", refused.place as usize),
    }
}

// Where the next `ask` line starts, from a line's start on, or the end of the input.
fn next_ask(input: &[u8], start: usize) -> usize
    requires { start ≤ length input.now }
    ensures { (start ≤ result) × (result ≤ length input.now) }
{
    let mut from = start;
    // Where a line ends is known once it is looked at, so no range counts the turns.
    while from < input.len() {
        let end = text::find(input, b'\n', from, input.len());
        let stop = text::find(input, b',', from, end);
        if text::same_text(input, from, stop, b"ask") {
            return from;
        }
        from = end + 1;
    }
    input.len()
}

// Reads each file, from one `ask` line up to the next. Where a write fails, it goes on with the next file.
fn all_files<W: Write>(out: &mut W, input: &[u8])
    requires { length input.now ≤ most_bytes }
{
    let mut from = 0;
    // Where a file ends is known once the next one is found, so no range counts the turns.
    while from < input.len() {
        let end = text::find(input, b'\n', from, input.len());
        let mut upto = input.len();
        if end < input.len() {
            upto = next_ask(input, end + 1);
        }
        let _ = one_file(out, &input[from..upto]);
        from = upto;
    }
}

// Reads standard input; more than 65,535 bytes are not looked at.
fn main(rt: HostRuntime) {
    let mut input = [0u8; 65536];
    let n = cases::read_full(&mut rt.stdin(), &mut input);
    if model::MOST_BYTES < n {
        return;
    }
    all_files(&mut rt.stdout(), &input[..n]);
}
