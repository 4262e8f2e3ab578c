// What must come before what: the rows of the check over all def lines, put into words of the run's slice, and the core of its
// call. The six lent slices are parameters of their own, as in `filter`.
#![tactic(auto)]

ghost use Rattle.std.specs.Prelude.{◌+◌, ◌*◌, ◌≤◌, ◌<◌, ◌≡◌, length};
ghost use Rattle.model.specs.Reading.{most_names, most_records, most_uses};
ghost use Rattle.model.specs.Outcome.{working_words};
ghost use Rattle.model.specs.Working.{six};
ghost use Rattle.model.specs.Checking.{refusal_at, ordered};
ghost use Rattle.records.specs.States.{uses_at};
ghost use Rattle.records.specs.Filing.{Records};
ghost use Rattle.prune.specs.Loops.{Index, Readable};
ghost use Rattle.prune.specs.Rows.{RowsBehind};
ghost use Rattle.precedence.specs.Sorts.{sort_number, sort_at, late_at, body_rows, def_rows, all_late, has_stamp, stamps};
ghost use Rattle.precedence.specs.Loops.{Checkable, StampsBelow, StampedTo};
ghost use Rattle.precedence.specs.Call.{LatePut, check_in_numbers, LateTables, ListsRows, Orders, FoundRows};

use firing::tables::RecordTables;
use model::{Counts, Ordered, Refusal, Verdict};

// The answer in numbers: the number of the refusal, 0 for rows; its place; how many rows are listed.
#[repr(C)]
#[derive(Clone, Copy)]
pub struct Late {
    pub refusal: u32,
    pub place: u32,
    pub rows: usize,
}

impl From<Ordered> for Late {
    ghost from_gives = { λ o r. r ≡ check_in_numbers o };

    #[tactic(auto, unfolding(crate::specs::Call::check_in_numbers))]
    fn from(o: Ordered) -> Late {
        Late {
            refusal: front::verdict_number(o.verdict),
            place: o.place,
            rows: o.rows,
        }
    }
}

// Why a name of a def's body is listed: its def or fun stands on the def's line or a later one, or it has neither.
#[derive(Clone, Copy)]
enum Sort {
    Late = 1,
    Neither = 2,
}

impl Sort {
    // The third number of its rows.
    #[tactic(auto, unfolding(crate::specs::Sorts::sort_number))]
    fn number(self) -> u32
        ensures { result ≡ sort_number self }
    {
        self as u32
    }
}

// The sort of a name that is free in the body of a def; none where its def or fun stands before.
fn sort_at(tables: &RecordTables, i: usize, n: usize) -> Option<Sort>
    requires { Readable tables.now.names.now tables.now.recs.now n × (i < most_records) }
    ensures { result ≡ sort_at tables.now.names.now tables.now.recs.now i n }
{
    let taken = words::at(tables.names, records::TAKEN + n);
    if taken == 0 {
        return Some(Sort::Neither);
    }
    if words::at(tables.recs, records::KIND + (taken - 1)) == records::ASSUME {
        return Some(Sort::Neither);
    }
    let line = words::at(tables.recs, records::LINE + i);
    if words::at(tables.recs, records::LINE + (taken - 1)) < line {
        return None;
    }
    Some(Sort::Late)
}

// The same of any name: none too where it is not free in the body, and so has not the stamp of the def.
fn late_at(tables: &RecordTables, refs: &[u32], i: usize, n: usize) -> Option<Sort>
    requires { Readable tables.now.names.now tables.now.recs.now n × (i < most_records) × (working_words ≤ length refs.now) }
    ensures { result ≡ late_at tables.now.names.now tables.now.recs.now (has_stamp refs.now i) i n }
{
    if words::at(refs, n) != i + 1 {
        return None;
    }
    sort_at(tables, i, n)
}

// Puts the rows of a def, the names of whose body have its stamp, behind the first m rows, by name in byte order; how many
// there are then.
fn put_body(tables: &RecordTables, refs: &[u32], run: &mut [u32], i: usize, m: usize) -> usize
    requires { Index tables.now.names.now tables.now.k.names × (working_words ≤ length tables.now.recs.now)
        × (working_words ≤ length refs.now) × (working_words ≤ length run.old) × (i < most_records)
        × (m + length (body_rows tables.now.names.now tables.now.recs.now (has_stamp refs.now i) tables.now.k.names i) ≤ most_uses) }
    ensures { RowsBehind run.old m (body_rows tables.now.names.now tables.now.recs.now
        (has_stamp refs.now i) tables.now.k.names i) run.new result }
{
    let line = tables.recs[records::LINE + i];
    let mut to = m;
    for r in 0..tables.k.names {
        let n = words::at(tables.names, names::INDEX + r);
        let Some(sort) = late_at(tables, refs, i, n) else {
            continue;
        };
        rows::put_row(run, to, line, n as u32, sort.number());
        to += 1;
    }
    to
}

// Gives the names that are free in the body of a def its stamp: the number of its record and one.
fn stamp_body(tables: &RecordTables, refs: &mut [u32], i: usize)
    requires { Records tables.now.recs.now tables.now.lists.now tables.now.k.names tables.now.k.records tables.now.k.entries
        tables.now.k.uses × (tables.now.k.names ≤ most_names) × (working_words ≤ length refs.old) × (i < tables.now.k.records) }
    ensures { refs.new ≡ stamps (i + 1) refs.old
        (uses_at tables.now.recs.now tables.now.lists.now i) }
{
    let a = words::at(tables.recs, records::USES_START + i);
    let e = words::at(tables.recs, records::USES_END + i);
    let stamp = (i + 1) as u32;
    for j in a..e {
        refs[words::at(tables.lists, j)] = stamp;
    }
}

// Puts the rows of a record, which has some if it is a def, behind the first m rows; how many there are then.
fn put_def(tables: &RecordTables, refs: &mut [u32], run: &mut [u32], i: usize, m: usize) -> usize
    requires { Checkable tables.now.names.now tables.now.recs.now tables.now.lists.now tables.now.k
        × (working_words ≤ length refs.old) × (working_words ≤ length run.old) × (i < tables.now.k.records) × StampsBelow refs.old i
        × (m + length (def_rows tables.now.names.now tables.now.recs.now tables.now.lists.now tables.now.k.names i) ≤ most_uses) }
    ensures listed { RowsBehind run.old m (def_rows tables.now.names.now tables.now.recs.now
        tables.now.lists.now tables.now.k.names i) run.new result }
    ensures stamped { StampedTo refs.old refs.new (i + 1) }
{
    if words::at(tables.recs, records::KIND + i) != records::DEF {
        return m;
    }
    stamp_body(tables, refs, i);
    put_body(tables, refs, run, i, m)
}

// Puts the rows of all defs into words, by line and then by name in byte order; how many there are.
pub fn put_rows(tables: &RecordTables, refs: &mut [u32], run: &mut [u32]) -> usize
    requires { Checkable tables.now.names.now tables.now.recs.now tables.now.lists.now tables.now.k
        × (working_words ≤ length refs.old) × (working_words ≤ length run.old)
        × (length (all_late tables.now.names.now tables.now.recs.now tables.now.lists.now tables.now.k) ≤ most_uses) }
    ensures { LatePut (all_late tables.now.names.now tables.now.recs.now tables.now.lists.now tables.now.k)
        refs.old refs.new run.old run.new result }
{
    words::clear(refs, 0, model::MOST_NAMES);
    let mut to = 0;
    for i in 0..tables.k.records {
        to = put_def(tables, refs, run, i, to);
    }
    to
}

// A refused answer: its place, and no rows. A function in each call, since the answers differ in their counts.
#[tactic(auto, unfolding(model::specs::Checking::ordered))]
fn refused(r: Refusal, place: u32) -> Ordered
    ensures { result ≡ ordered (refusal_at r place) }
{
    Ordered {
        verdict: Verdict::Refused(r),
        place,
        rows: 0,
    }
}

// Lists the rows of an open file in words of the run's slice and clears all else that a call uses; or refuses with 8 and clears
// that too.
// Not inlined: its locals are not on the stack while the lines are read, when a call takes most of it.
#[inline(never)]
fn list_rows(
    w0: &mut [u32],
    w1: &mut [u32],
    w2: &mut [u32],
    w3: &mut [u32],
    w4: &mut [u32],
    w5: &mut [u32],
    k: Counts,
    room: usize,
) -> Ordered
    requires { LateTables (six w0.old w1.old w2.old w3.old w4.old w5.old) k }
    ensures { ListsRows (all_late w0.old w3.old w4.old k) room
        (six w0.old w1.old w2.old w3.old w4.old w5.old)
        (six w0.new w1.new w2.new w3.new w4.new w5.new) result }
{
    let tables = RecordTables {
        names: &*w0,
        recs: &*w3,
        lists: &*w4,
        k,
    };
    let count = put_rows(&tables, w1, w5);
    let is_short = room < count;
    if is_short {
        front::close_file(w0, w1, w2, w3, w4, w5);
        return refused(Refusal::Room, count as u32);
    }
    front::close_tables(w0, w1, w2, w3, w4);
    words::clear(w5, 2 * count, model::WORKING_WORDS - 2 * count);
    Ordered {
        verdict: Verdict::Accepted,
        place: 0,
        rows: count,
    }
}

// Lists the rows of the check of a file in words of the run's slice, or refuses.
pub fn check_order(
    file: &[u8],
    w0: &mut [u32],
    w1: &mut [u32],
    w2: &mut [u32],
    w3: &mut [u32],
    w4: &mut [u32],
    w5: &mut [u32],
    room: usize,
) -> Ordered
    ensures { Orders file.now
        (six w0.old w1.old w2.old w3.old w4.old w5.old) room result
        (six w0.new w1.new w2.new w3.new w4.new w5.new) }
{
    match front::open_file(file, w0, w1, w2, w3, w4, w5) {
        Ok(k) => list_rows(w0, w1, w2, w3, w4, w5, k, room),
        Err(r) => refused(r.refusal, r.place),
    }
}

// The core of the exported call: the same, answered in numbers.
pub fn find_rows(
    file: &[u8],
    w0: &mut [u32],
    w1: &mut [u32],
    w2: &mut [u32],
    w3: &mut [u32],
    w4: &mut [u32],
    w5: &mut [u32],
    room: usize,
) -> Late
    ensures { FoundRows file.now
        (six w0.old w1.old w2.old w3.old w4.old w5.old) room result
        (six w0.new w1.new w2.new w3.new w4.new w5.new) }
{
    Late::from(check_order(file, w0, w1, w2, w3, w4, w5, room))
}
