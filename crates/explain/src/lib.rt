// The core of the call that tells why each fact came along: the rows of one position, left in words of the run's slice, and how
// many of the numbered names are met. The six lent slices are parameters of their own, as in `filter`.
#![tactic(auto)]

ghost use Rattle.std.specs.Prelude.{◌*◌, ◌≤◌, ◌<◌, ◌≡◌};
ghost use Rattle.model.specs.Working.{six};
ghost use Rattle.model.specs.Explaining.{refusal_at, why};
ghost use Rattle.front.specs.Opening.{Long};
ghost use Rattle.explain.specs.Call.{reasons_in_numbers, LentTables, TellsRows, MovesRows, HeldOpen, PositionTold};
ghost use Rattle.explain.specs.Call.{ExplainsTo, FoundReasons};

use firing::tables::RecordTables;
use model::{Asked, Counts, Refusal, Verdict, Why};

// The answer in numbers: the number of the refusal, 0 for rows; its place; how many of the numbered names are met; how many
// rows are filled.
#[repr(C)]
#[derive(Clone, Copy)]
pub struct Reasons {
    pub refusal: u32,
    pub place: u32,
    pub met: usize,
    pub rows: usize,
}

impl From<Why> for Reasons {
    ghost from_gives = { λ w r. r ≡ reasons_in_numbers w };

    #[tactic(auto, unfolding(crate::specs::Call::reasons_in_numbers))]
    fn from(w: Why) -> Reasons {
        Reasons {
            refusal: front::verdict_number(w.verdict),
            place: w.place,
            met: w.met,
            rows: w.rows,
        }
    }
}

// A refused answer: its place, and both counts 0. A function in each call, since the answers differ in their counts.
#[tactic(auto, unfolding(model::specs::Explaining::why))]
fn refused(r: Refusal, place: u32) -> Why
    ensures { result ≡ why (refusal_at r place) }
{
    Why {
        verdict: Verdict::Refused(r),
        place,
        met: 0,
        rows: 0,
    }
}

// Tells the reasons of an ask over the tables: the rows stand in the slice of the references, which the reading has done with.
fn tell(file: &[u8], tables: &RecordTables, refs: &mut [u32], run: &mut [u32], a: Asked) -> Why
    requires { LentTables file.now tables.now.names.now refs.old tables.now.recs.now tables.now.lists.now run.old tables.now.k a }
    ensures { TellsRows file.now tables.now.names.now tables.now.recs.now tables.now.lists.now tables.now.k a
        refs.old refs.new run.old run.new result }
{
    scan::run_ask(file, tables, run, a);
    suppliers::find_suppliers(tables, run, a);
    let rows = reasons::put_rows(tables, refs, run);
    let met = bits::count_met(run, tables.k.names);
    Why {
        verdict: Verdict::Accepted,
        place: 0,
        met,
        rows,
    }
}

// Moves the rows to the start of the run's slice and clears all else that a call uses.
fn move_rows(
    w0: &mut [u32],
    w1: &mut [u32],
    w2: &mut [u32],
    w3: &mut [u32],
    w4: &mut [u32],
    w5: &mut [u32],
    rows: usize,
)
    requires { Long (six w0.old w1.old w2.old w3.old w4.old w5.old) × (rows ≤ 2048) }
    ensures { MovesRows rows
        (six w0.old w1.old w2.old w3.old w4.old w5.old)
        (six w0.new w1.new w2.new w3.new w4.new w5.new) }
{
    words::clear(w5, 0, model::WORKING_WORDS);
    words::copy(w1, 0, w5, 0, 2 * rows);
    front::close_tables(w0, w1, w2, w3, w4);
}

// Tells the reasons at a position of a file that is open, or refuses with 15.
// Not inlined: its locals are not on the stack while the lines are read, when a call takes most of it.
#[inline(never)]
fn answer_position(
    file: &[u8],
    position: usize,
    w0: &mut [u32],
    w1: &mut [u32],
    w2: &mut [u32],
    w3: &mut [u32],
    w4: &mut [u32],
    w5: &mut [u32],
    k: Counts,
) -> Why
    requires { HeldOpen file.now (six w0.old w1.old w2.old w3.old w4.old w5.old) k }
    ensures { PositionTold file.now position k
        (six w0.old w1.old w2.old w3.old w4.old w5.old)
        (six w0.new w1.new w2.new w3.new w4.new w5.new) result }
{
    if position == 0 || k.asks < position {
        front::close_file(w0, w1, w2, w3, w4, w5);
        return refused(Refusal::Position, 0);
    }
    let a = records::ask_at(w3, position - 1);
    let tables = RecordTables {
        names: &*w0,
        recs: &*w3,
        lists: &*w4,
        k,
    };
    let told = tell(file, &tables, w1, w5, a);
    move_rows(w0, w1, w2, w3, w4, w5, told.rows);
    told
}

// Tells the reasons at a position of a file, over a table of so many rows, or refuses.
pub fn explain(
    file: &[u8],
    position: usize,
    w0: &mut [u32],
    w1: &mut [u32],
    w2: &mut [u32],
    w3: &mut [u32],
    w4: &mut [u32],
    w5: &mut [u32],
    room: usize,
) -> Why
    ensures { ExplainsTo file.now position
        (six w0.old w1.old w2.old w3.old w4.old w5.old) room result
        (six w0.new w1.new w2.new w3.new w4.new w5.new) }
{
    if room < model::MOST_ROWS {
        return refused(Refusal::Working, 0);
    }
    match front::open_file(file, w0, w1, w2, w3, w4, w5) {
        Ok(k) => answer_position(file, position, w0, w1, w2, w3, w4, w5, k),
        Err(r) => refused(r.refusal, r.place),
    }
}

// The same, with the answer in numbers.
pub fn find_rows(
    file: &[u8],
    position: usize,
    w0: &mut [u32],
    w1: &mut [u32],
    w2: &mut [u32],
    w3: &mut [u32],
    w4: &mut [u32],
    w5: &mut [u32],
    room: usize,
) -> Reasons
    ensures { FoundReasons file.now position
        (six w0.old w1.old w2.old w3.old w4.old w5.old) room result
        (six w0.new w1.new w2.new w3.new w4.new w5.new) }
{
    Reasons::from(explain(file, position, w0, w1, w2, w3, w4, w5, room))
}
