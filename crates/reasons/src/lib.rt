// Why each fact came along, on numbers: a row for each reached fact and each name that it lists and that was met no later than
// the fact's round. The rows stand in words of the slice of the references, which is free after the reading.
#![tactic(auto)]

ghost use Rattle.std.specs.Prelude.{◌+◌, ◌≤◌, ◌<◌, ◌≡◌, length};
ghost use Rattle.model.specs.Reading.{most_names};
ghost use Rattle.model.specs.Outcome.{working_words};
ghost use Rattle.model.specs.Explaining.{most_rows};
ghost use Rattle.prune.specs.Rows.{RowsBehind};
ghost use Rattle.reasons.specs.Rows.{supplied, lists_name, row_due, rows_at};
ghost use Rattle.reasons.specs.Rows.{EntriesIn, Explainable, RowsPut};

use firing::tables::RecordTables;

// Whether an entry of a record has the name.
fn lists_name(tables: &RecordTables, i: usize, n: usize) -> bool
    requires { EntriesIn tables.now.recs.now tables.now.lists.now i }
    ensures { result ≡ lists_name tables.now.recs.now tables.now.lists.now i n }
{
    let a = words::at(tables.recs, records::ENTRIES_START + i);
    let e = words::at(tables.recs, records::ENTRIES_END + i);
    for j in a..e {
        let x = words::at(tables.lists, triggers::ENTRIES + j);
        if x % triggers::LAST == n {
            return true;
        }
    }
    false
}

// Whether a reached record has a row for a name: met, no later than in the record's round, and listed.
#[tactic(auto, using(crate::proofs::Listed::due_unmet, crate::proofs::Listed::due_late, crate::proofs::Listed::due_listed))]
fn row_due(tables: &RecordTables, run: &[u32], i: usize, n: usize) -> bool
    requires { EntriesIn tables.now.recs.now tables.now.lists.now i × (working_words ≤ length run.now) × (n < most_names) }
    ensures { result ≡ row_due tables.now.recs.now tables.now.lists.now run.now i n }
{
    let met = words::at(run, n);
    if met == 0 {
        return false;
    }
    if words::at(run, firing::REACHED + i) < met {
        return false;
    }
    lists_name(tables, i, n)
}

// Puts the rows of a record behind the first `at` rows, by listed name in byte order; how many there are then.
fn put_rows_of(tables: &RecordTables, refs: &mut [u32], run: &[u32], i: usize, at: usize) -> usize
    requires { Explainable tables.now.names.now refs.old tables.now.recs.now tables.now.lists.now run.now tables.now.k
        × (i < tables.now.k.records)
        × (at + length (rows_at tables.now.names.now tables.now.recs.now tables.now.lists.now run.now (supplied run.now)
        tables.now.k.names i) ≤ most_rows) }
    ensures { RowsBehind refs.old at (rows_at tables.now.names.now tables.now.recs.now tables.now.lists.now
        run.now (supplied run.now) tables.now.k.names i) refs.new result }
{
    let mut to = at;
    for r in 0..tables.k.names {
        let n = words::at(tables.names, names::INDEX + r);
        if !row_due(tables, run, i, n) {
            continue;
        }
        let supplier = words::at(run, suppliers::SUPPLIER + n);
        let line = tables.recs[records::LINE + i];
        let cause = tables.recs[records::LINE + (supplier - 1)];
        rows::put_row(refs, to, line, n as u32, cause);
        to += 1;
    }
    to
}

// Puts the rows of all reached facts into words, by the names of the facts and then by listed name, both in byte order; how
// many there are.
pub fn put_rows(tables: &RecordTables, refs: &mut [u32], run: &[u32]) -> usize
    requires { Explainable tables.now.names.now refs.old tables.now.recs.now tables.now.lists.now run.now tables.now.k }
    ensures { RowsPut tables.now.names.now tables.now.recs.now tables.now.lists.now run.now tables.now.k refs.old refs.new result }
{
    let mut to = 0;
    for r in 0..tables.k.names {
        let t = prune::reached_at(tables, run, r);
        if t == 0 {
            continue;
        }
        to = put_rows_of(tables, refs, run, t - 1, to);
    }
    to
}
