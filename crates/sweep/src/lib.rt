// The exported call of the second engine: sweeps and kept lists, position after position, and 8. The six lent slices are
// parameters of their own, as in `filter`.
#![tactic(auto)]

ghost use Rattle.std.specs.Prelude.{◌+◌, ◌≤◌, ◌<◌, ◌≡◌, []};
ghost use Rattle.model.specs.Reading.{most_records};
ghost use Rattle.model.specs.Outcome.{refusal_at, working_words};
ghost use Rattle.model.specs.Working.{six};
ghost use Rattle.words.specs.Slices.{SameBut};
ghost use Rattle.records.specs.States.{asked_at};
ghost use Rattle.filter.specs.Call.{position_of, positions_of};
ghost use Rattle.sweep.specs.Call.{telling, passes_at, passes_before, ListedAt, Replied, SweepsOver};
ghost use Rattle.sweep.specs.Demands.{KeptPromise};

use firing::tables::RecordTables;
use model::{Refusal, Swept, Verdict};

// The counts of one list: its lines, and the passes of its sweep.
#[derive(Clone, Copy)]
struct Tally {
    pub kept: u32,
    pub passes: u32,
}

// The answer of all positions, and how many lines their lists have together.
#[derive(Clone, Copy)]
struct Tallied {
    pub answer: Swept,
    pub total: usize,
}

// A refused answer: its place, and every count 0. A function in each call, since the answers differ in their counts.
#[tactic(auto, unfolding(crate::specs::Call::telling, model::specs::Outcome::padded))]
fn refused(r: Refusal, place: u32) -> Swept
    ensures { result ≡ telling (refusal_at r place) [] }
{
    Swept {
        verdict: Verdict::Refused(r),
        place,
        kept: [0; model::MOST_ASKS],
        passes: [0; model::MOST_ASKS],
    }
}

// Sweeps the ask of a position over the tables, from the start on an also line too, and lists the kept lines from a place of
// the references' slice on, which the reading has done with.
fn list_ask(
    file: &[u8],
    tables: &RecordTables,
    refs: &mut [u32],
    run: &mut [u32],
    i: usize,
    at: usize,
) -> Tally
    requires { SweepsOver file.now tables.now.names.now refs.old tables.now.recs.now tables.now.lists.now run.old tables.now.k
        × (i < tables.now.k.asks) × (at + most_records ≤ working_words) }
    ensures listed { ListedAt (position_of file.now tables.now.names.now tables.now.recs.now
        tables.now.lists.now tables.now.k (asked_at tables.now.recs.now i))
        (passes_at file.now tables.now.names.now tables.now.recs.now tables.now.lists.now tables.now.k i)
        at refs.old refs.new result }
    ensures rest { SameBut 0 working_words run.old run.new }
{
    let a = records::ask_at(tables.recs, i);
    let passes = sweeping::sweep_ask(file, tables, run, a);
    let kept = prune::prune(file, tables, run, a);
    words::copy(run, prune::KEPT, refs, at, kept);
    Tally {
        kept: kept as u32,
        passes: passes as u32,
    }
}

// Sweeps the positions one after the other; their lists stand end to end from the start of the references' slice on. Apart from
// `filter`'s for the reason told there.
// Not inlined: its locals are not on the stack while the lines are read, when a call takes most of it.
#[inline(never)]
fn list_asks(file: &[u8], tables: &RecordTables, refs: &mut [u32], run: &mut [u32]) -> Tallied
    requires { SweepsOver file.now tables.now.names.now refs.old tables.now.recs.now tables.now.lists.now run.old tables.now.k }
    ensures replied { Replied (positions_of file.now tables.now.names.now tables.now.recs.now
        tables.now.lists.now tables.now.k tables.now.k.asks)
        (passes_before file.now tables.now.names.now tables.now.recs.now tables.now.lists.now tables.now.k tables.now.k.asks)
        result.answer result.total refs.new }
    ensures rest { SameBut 0 working_words refs.old refs.new
        × SameBut 0 working_words run.old run.new }
{
    let mut a = Swept {
        verdict: Verdict::Accepted,
        place: 0,
        kept: [0; model::MOST_ASKS],
        passes: [0; model::MOST_ASKS],
    };
    let mut total: usize = 0;
    for i in 0..tables.k.asks {
        let one = list_ask(file, tables, refs, run, i, total);
        a.kept[i] = one.kept;
        a.passes[i] = one.passes;
        total += one.kept as usize;
    }
    Tallied { answer: a, total }
}

// The exported call: `filter` by the second engine, with the passes of each position.
pub fn sweep(
    file: &[u8],
    w0: &mut [u32],
    w1: &mut [u32],
    w2: &mut [u32],
    w3: &mut [u32],
    w4: &mut [u32],
    w5: &mut [u32],
    out: &mut [u32],
) -> Swept
    ensures { KeptPromise (record {
      file = file.entry.now;
      lent = six w0.old w1.old w2.old w3.old w4.old w5.old;
      out = out.old;
      answer = result;
      left = six w0.new w1.new w2.new w3.new w4.new w5.new;
      out' = out.new;
    }) }
{
    match front::open_file(file, w0, w1, w2, w3, w4, w5) {
        Ok(k) => {
            let tables = RecordTables {
                names: &*w0,
                recs: &*w3,
                lists: &*w4,
                k,
            };
            let made = list_asks(file, &tables, w1, w5);
            let put = filter::put_lists(w1, made.total, out);
            front::close_file(w0, w1, w2, w3, w4, w5);
            match put {
                Ok(()) => made.answer,
                Err(total) => refused(Refusal::Room, total),
            }
        }
        Err(r) => refused(r.refusal, r.place),
    }
}
