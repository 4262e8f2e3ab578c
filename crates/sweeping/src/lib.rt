#![tactic(auto)]

ghost use Rattle.std.specs.Prelude.{ℕ, ◌+◌, ◌≤◌, ◌<◌, ◌≡◌, Bool, length};
ghost use Rattle.model.specs.Lists.{any, part};
ghost use Rattle.model.specs.Reading.{most_names, most_records, most_entries};
ghost use Rattle.model.specs.Outcome.{working_words};
ghost use Rattle.records.specs.Columns.{entries_start, entries_end, ask_room};
ghost use Rattle.firing.specs.Tables.{held_in, IsFilled, IsLaid};
ghost use Rattle.firing.specs.Met.{run_end};
ghost use Rattle.sweeping.specs.Sweeping.{sweeping, name_met, adds_at, pass_all};
ghost use Rattle.sweeping.specs.Swept.{met_first, SweptThrough};

use firing::tables::RecordTables;
use model::Asked;

// The words of the run's slice that a sweep writes: by name, from word 0 on, 1 where it is met; by record, from
// `firing::REACHED` on, 1 where it is reached.
const COLUMNS: usize = 3072;

// Whether the name of an entry from `a` up to `e` is met.
#[tactic(auto, using(crate::proofs::Entries::none_left, crate::proofs::Entries::past_none, crate::proofs::Entries::past_unmet, crate::proofs::Entries::at_met))]
fn any_met(lists: &[u32], run: &[u32], a: usize, e: usize) -> bool
    requires { (a ≤ e) × (e ≤ length lists.now) × (most_names ≤ length run.now) }
    ensures { result ≡ any (name_met run.now) (part lists.now a e) }
{
    for i in a..e {
        let n = words::at(lists, i) % triggers::LAST;
        if triggers::NO_NAME <= n {
            continue;
        }
        if words::at(run, n) != 0 {
            return true;
        }
    }
    false
}

// Whether a record is added: a retainable fact that the ask admits, not reached, and it fires on the names met now.
// `firing::fires` alone would let an empty disjunct fire.
#[tactic(auto, using(crate::proofs::Entries::not_taken, crate::proofs::Entries::not_retained, crate::proofs::Entries::is_there, crate::proofs::Entries::none_met, crate::proofs::Entries::by_firing))]
fn adds(recs: &[u32], lists: &[u32], run: &[u32], a: Asked, i: usize) -> bool
    requires { (i < most_records) × (working_words ≤ length recs.now) × (working_words ≤ length lists.now)
        × (run_end ≤ length run.now) × (entries_start recs.now i ≤ entries_end recs.now i)
        × (entries_end recs.now i ≤ most_entries) }
    ensures { result ≡ adds_at recs.now lists.now a run.now i }
{
    let admitted = records::takes_part(recs, a, i);
    if !admitted {
        return false;
    }
    let retainable = firing::retained(recs, a, i);
    if !retainable {
        return false;
    }
    if words::at(run, firing::REACHED + i) != 0 {
        return false;
    }
    let start = triggers::ENTRIES + words::at(recs, records::ENTRIES_START + i);
    let end = triggers::ENTRIES + words::at(recs, records::ENTRIES_END + i);
    if !any_met(lists, run, start, end) {
        return false;
    }
    firing::fires(lists, run, start, end)
}

// Clears the columns and meets the names of the records that start.
#[tactic(auto, using(crate::proofs::Loops::meet_start, crate::proofs::Loops::meet_skip, crate::proofs::Loops::first_names))]
fn meet_first(tables: &RecordTables, run: &mut [u32], a: Asked)
    requires { IsLaid tables.now × (a.end ≤ ask_room) × (run_end ≤ length run.old) }
    ensures { run.new ≡ met_first tables.now.names.now tables.now.recs.now tables.now.lists.now tables.now.k a run.old }
{
    words::clear(run, 0, COLUMNS);
    for i in 0..tables.k.records {
        if !firing::starts(tables.recs, a, i) {
            continue;
        }
        tables.meet_record(run, i, 1);
    }
}

// Passes over the records in line order: one that is added is reached, and its names are met at once. Whether one was added.
fn pass(tables: &RecordTables, run: &mut [u32], a: Asked) -> bool
    requires { IsLaid tables.now × (run_end ≤ length run.old) }
    ensures { (n : ℕ) (b : Bool) → sweeping run.new (n + 1) result ≡ pass_all (held_in tables.now a) (sweeping run.old n b) }
{
    let end = tables.k.records;
    let mut added = false;
    for i in 0..end {
        if !adds(tables.recs, tables.lists, run, a, i) {
            continue;
        }
        run[firing::REACHED + i] = 1;
        tables.meet_record(run, i, 1);
        added = true;
    }
    added
}

// Sweeps an ask over the tables that the reader filled, pass after pass to the one that adds no fact; how many passes.
#[tactic(auto, using(crate::proofs::Loops::first_length, crate::proofs::Loops::on_start, crate::proofs::Loops::on_length))]
pub fn sweep_ask(file: &[u8], tables: &RecordTables, run: &mut [u32], a: Asked) -> usize
    requires { IsFilled file.now tables.now × (a.end ≤ ask_room) × (run_end ≤ length run.old) }
    ensures { SweptThrough file.now tables.now.names.now tables.now.recs.now tables.now.lists.now tables.now.k a
        run.old run.new result }
{
    meet_first(tables, run, a);
    let mut passes = 1;
    // The last pass is known once it adds no fact, so no range counts them.
    loop {
        if !pass(tables, run, a) {
            return passes;
        }
        passes += 1;
    }
}
