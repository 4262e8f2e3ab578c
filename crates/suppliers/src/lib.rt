#![tactic(auto)]

ghost use Rattle.std.specs.Prelude.{ℕ, ◌≤◌, ◌<◌, ◌≡◌, length, get_or};
ghost use Rattle.model.specs.Lists.{part};
ghost use Rattle.model.specs.Reading.{most_names, most_records};
ghost use Rattle.model.specs.Outcome.{working_words};
ghost use Rattle.records.specs.Columns.{record_line, macro_at, ask_room};
ghost use Rattle.macros.specs.Macros.{opens_at};
ghost use Rattle.firing.specs.Tables.{record_meets, IsLaid, starts_at};
ghost use Rattle.suppliers.specs.Notes.{goes_before, note, notes, was_scanned, Notable, SuppliersNoted};

use firing::tables::RecordTables;
use model::Asked;

// The column of the run's slice behind those of the run: by name, the record that supplies it, and one.
pub const SUPPLIER: usize = 5120;

// Whether a record goes before the one that a word of the column notes, by their lines.
#[tactic(auto, using(crate::proofs::Noting::before_none, crate::proofs::Passing::before_line))]
fn goes_before(recs: &[u32], i: usize, word: usize) -> bool
    requires { (working_words ≤ length recs.now) × (i < most_records) × (word ≤ most_records) }
    ensures { result ≡ goes_before (record_line recs.now) i word }
{
    if word == 0 {
        return true;
    }
    let line = words::at(recs, records::LINE + i);
    let noted = words::at(recs, records::LINE + (word - 1));
    line < noted
}

// Notes a record as the supplier of a name that was first met in the round after the record's, unless one on a lower line is
// noted.
#[tactic(auto, using(crate::proofs::Passing::note_unmet, crate::proofs::Passing::note_late, crate::proofs::Passing::note_behind, crate::proofs::Passing::note_set))]
fn note(recs: &[u32], run: &mut [u32], i: usize, n: usize)
    requires { Notable recs.now run.old × (i < most_records) × (n < most_names) }
    ensures { run.new ≡ note (record_line recs.now) i run.old n }
{
    let met = words::at(run, n);
    if met == 0 {
        return;
    }
    if met - 1 != words::at(run, firing::REACHED + i) {
        return;
    }
    if !goes_before(recs, i, words::at(run, SUPPLIER + n)) {
        return;
    }
    run[SUPPLIER + n] = (i + 1) as u32;
}

// Notes a record for the names of a part of the uses.
// The uses are walked here as firing's `meet_part`, `open_macro` and `meet_record` walk them. One walk over a closure is no
// plainer: the closure would hold the lent slice, and a note asks more of that (`Notable`) than a meeting does.
#[tactic(auto, using(crate::proofs::Passing::part_end))]
fn note_part(recs: &[u32], lists: &[u32], run: &mut [u32], i: usize, a: usize, e: usize)
    requires { Notable recs.now run.old × (i < most_records) × (a ≤ e) × (e ≤ length lists.now)
        × ((j : ℕ) → a ≤ j → j < e → get_or lists.now j 0 < most_names) }
    ensures { run.new ≡ notes (record_line recs.now) i run.old
        (part lists.now a e) }
{
    for j in a..e {
        note(recs, run, i, words::at(lists, j));
    }
}

// Notes a record for what a name opens to, one level.
#[tactic(auto, using(crate::proofs::Passing::open_none, crate::proofs::Passing::open_record, crate::proofs::Passing::open_name))]
fn note_macro(tables: &RecordTables, run: &mut [u32], i: usize, n: usize)
    requires { IsLaid tables.now × Notable tables.now.recs.now run.old × (i < most_records) × (n < tables.now.k.names) }
    ensures { run.new ≡ notes (record_line tables.now.recs.now) i run.old
        (opens_at tables.now.recs.now tables.now.lists.now (macro_at tables.now.names.now n)) }
{
    let word = words::at(tables.names, records::MACRO + n);
    if word == 0 {
        return;
    }
    if word < macros::OPENED {
        let a = words::at(tables.recs, records::USES_START + (word - 1));
        let e = words::at(tables.recs, records::USES_END + (word - 1));
        note_part(tables.recs, tables.lists, run, i, a, e);
        return;
    }
    note(tables.recs, run, i, word - macros::OPENED);
}

// Notes a record for its free names, and what they open to.
#[tactic(auto, using(crate::proofs::Passing::noted_on))]
fn note_record(tables: &RecordTables, run: &mut [u32], i: usize)
    requires { IsLaid tables.now × Notable tables.now.recs.now run.old × (i < tables.now.k.records) }
    ensures { run.new ≡ notes (record_line tables.now.recs.now) i run.old
        (record_meets tables.now.names.now tables.now.recs.now tables.now.lists.now i) }
{
    let a = words::at(tables.recs, records::USES_START + i);
    let e = words::at(tables.recs, records::USES_END + i);
    for j in a..e {
        let n = words::at(tables.lists, j);
        note(tables.recs, run, i, n);
        note_macro(tables, run, i, n);
    }
}

// Whether a run scanned a record: in its first round, or after it was reached.
#[tactic(auto, using(crate::proofs::Passing::scanned_first, crate::proofs::Passing::scanned_later))]
fn was_scanned(recs: &[u32], run: &[u32], a: Asked, i: usize) -> bool
    requires { (i < most_records) × (a.end ≤ ask_room) × (working_words ≤ length recs.now)
        × (working_words ≤ length run.now) }
    ensures { result ≡ was_scanned (starts_at recs.now a) run.now i }
{
    if firing::starts(recs, a, i) {
        return true;
    }
    words::at(run, firing::REACHED + i) != 0
}

// Notes, after a run of the ask, for each name the record that supplies it: of the round before that in which the name was
// first met, on the lowest line.
#[tactic(auto, using(crate::proofs::Passing::cleared_notable, crate::proofs::Passing::pass_start, crate::proofs::Passing::pass_over, crate::proofs::Passing::pass_end))]
pub fn find_suppliers(tables: &RecordTables, run: &mut [u32], a: Asked)
    requires { IsLaid tables.now × (a.end ≤ ask_room) × (working_words ≤ length run.old) }
    ensures { SuppliersNoted tables.now.names.now tables.now.recs.now tables.now.lists.now tables.now.k a run.old run.new }
{
    words::clear(run, SUPPLIER, model::MOST_NAMES);
    for i in 0..tables.k.records {
        if !was_scanned(tables.recs, run, a, i) {
            continue;
        }
        note_record(tables, run, i);
    }
}
