#![tactic(auto)]

ghost use Rattle.std.specs.Prelude.{ℕ, ◌+◌, ◌≤◌, ◌<◌, ◌≡◌, map, length, get_or};
ghost use Rattle.model.specs.Lists.{part};
ghost use Rattle.model.specs.Reading.{most_names, most_records};
ghost use Rattle.model.specs.Outcome.{working_words};
ghost use Rattle.records.specs.Columns.{record_line, ask_room};
ghost use Rattle.records.specs.States.{uses_at};
ghost use Rattle.firing.specs.Met.{marks};
ghost use Rattle.prune.specs.Listing.{most_stamps, taker, reached_at, kind_at, ambient_at, is_goal, reached_records, ambient_records, fact_records, goal_records, stamp_records, kind_records, decl_records, added_at, added_records, of_kind, group_records, groups_records};
ghost use Rattle.prune.specs.Loops.{kept_column, queue_column, stamp_in, stamp_words, IsIndexed, Behind, KeptBehind, noted, Notes, Linked, Links, queue};
ghost use Rattle.prune.specs.Loops.{queue_def, follow_name, follow_names, Readable, QueueRoom, QueueNoted, Bodies, StampsFollowed, queue_part, QueueRecords, Listable, RecordsListed};
ghost use Rattle.prune.specs.Kept.{RunOver, Pruned};

use firing::tables::RecordTables;
use model::Asked;

// The columns of the run's slice behind those of the run: the kept list; by rank, the next lower rank of the same stamp, and
// one; by stamp, counted from 0, its highest rank and one; by name, its stamp. A stamp is the place of the item that first has
// a name, counted from 1, or one more than there is room for if a body adds the name. A rank is a name's place in byte order.
// Last the queue of the definitions whose bodies are followed; once it is worked off, the records of the names that bodies add.
pub const KEPT: usize = 5120;

const BELOW: usize = 6144;

const HIGHEST: usize = 8192;

const STAMP: usize = 10240;

const QUEUE: usize = 12288;

// The room for stamps: the kept facts and the roots.
const MOST_STAMPS: usize = 2048;

// The stamp of a name that a body adds.
const FOLLOWED: usize = MOST_STAMPS + 1;

// The assume, fun or def that took the name of a rank, and one; 0 if none did. A number and no `Option`, here and below, as the
// words of the table hold it: `taker` and `reached_at` of `specs/` say so.
#[tactic(auto, using(crate::proofs::Picking::taker_is, crate::proofs::Picking::number_in))]
fn taker(tables: &RecordTables, r: usize) -> usize
    requires { IsIndexed tables.now × (r < tables.now.k.names) }
    ensures { (result ≡ taker tables.now.names.now r) × (result ≤ most_records) }
{
    let n = words::at(tables.names, names::INDEX + r);
    words::at(tables.names, records::TAKEN + n)
}

// The same where the record is reached.
#[tactic(auto, using(crate::proofs::Picking::reached_none, crate::proofs::Picking::reached_not, crate::proofs::Picking::reached_is))]
pub fn reached_at(tables: &RecordTables, run: &[u32], r: usize) -> usize
    requires { IsIndexed tables.now × (working_words ≤ length run.now) × (r < tables.now.k.names) }
    ensures { (result ≡ reached_at tables.now.names.now run.now r) × (result ≤ most_records) }
{
    let t = taker(tables, r);
    if t == 0 {
        return 0;
    }
    if words::at(run, firing::REACHED + (t - 1)) == 0 {
        return 0;
    }
    t
}

// Lists the reached facts by name in byte order.
fn list_reached(tables: &RecordTables, run: &mut [u32]) -> usize
    requires { IsIndexed tables.now × (working_words ≤ length run.old)
        × (length (reached_records tables.now.names.now run.old tables.now.k.names) ≤ most_records) }
    ensures { KeptBehind run.old 0 (reached_records tables.now.names.now run.old tables.now.k.names)
        run.new result }
{
    let mut to = 0;
    for r in 0..tables.k.names {
        let t = reached_at(tables, run, r);
        if t == 0 {
            continue;
        }
        run[KEPT + to] = (t - 1) as u32;
        to += 1;
    }
    to
}

// The number of an ambient that the ask admits and one; 0 for another record.
#[tactic(auto, using(crate::proofs::Picking::ambient_low, crate::proofs::Picking::ambient_high, crate::proofs::Picking::ambient_apart, crate::proofs::Picking::ambient_is))]
fn ambient_at(recs: &[u32], a: Asked, i: usize) -> usize
    requires { (working_words ≤ length recs.now) × (i < most_records) }
    ensures { result ≡ ambient_at recs.now a i }
{
    let summary = words::at(recs, records::SUMMARY + i);
    if summary < records::AMBIENT {
        return 0;
    }
    if records::TRIGGERS <= summary {
        return 0;
    }
    if !records::takes_part(recs, a, i) {
        return 0;
    }
    i + 1
}

// Lists the ambients that the ask admits, last filed first; none with option 1.
fn list_ambients(tables: &RecordTables, run: &mut [u32], a: Asked, m: usize) -> usize
    requires { (working_words ≤ length tables.now.recs.now) × (working_words ≤ length run.old)
        × (tables.now.k.records ≤ most_records)
        × (m + length (ambient_records tables.now.recs.now tables.now.k a) ≤ most_records) }
    ensures { KeptBehind run.old m (ambient_records tables.now.recs.now tables.now.k a) run.new result }
{
    let mut to = m;
    let options = options::options_of(a.options);
    if options.no_ambients {
        return to;
    }
    for i in (0..tables.k.records).rev() {
        let t = ambient_at(tables.recs, a, i);
        if t == 0 {
            continue;
        }
        run[KEPT + to] = (t - 1) as u32;
        to += 1;
    }
    to
}

// Lists the kept facts.
fn list_facts(tables: &RecordTables, run: &mut [u32], a: Asked) -> usize
    requires { IsIndexed tables.now × (working_words ≤ length tables.now.recs.now) × (working_words ≤ length run.old)
        × (tables.now.k.records ≤ most_records)
        × (length (fact_records tables.now.names.now tables.now.recs.now run.old tables.now.k a) ≤ most_records) }
    ensures { KeptBehind run.old 0 (fact_records tables.now.names.now tables.now.recs.now run.old tables.now.k a)
        run.new result }
{
    let reached = list_reached(tables, run);
    list_ambients(tables, run, a, reached)
}

// Notes the free names of a record with a stamp, those that have none yet.
#[tactic(auto, using(crate::proofs::Noting::uses_place, crate::proofs::Noting::names_next, crate::proofs::Noting::names_end))]
fn note_record(tables: &RecordTables, run: &mut [u32], i: usize, stamp: usize)
    requires { Notes tables.now.recs.now tables.now.lists.now run.old tables.now.k × (i < tables.now.k.records)
        × (stamp ≤ most_stamps) }
    ensures { run.new ≡ marks stamp run.old (stamp_words tables.now.recs.now tables.now.lists.now i) }
{
    let a = words::at(tables.recs, records::USES_START + i);
    let e = words::at(tables.recs, records::USES_END + i);
    for j in a..e {
        firing::meet(run, STAMP + words::at(tables.lists, j), stamp);
    }
}

// Notes the names of the kept facts, as listed.
fn note_facts(tables: &RecordTables, run: &mut [u32], count: usize)
    requires { Notes tables.now.recs.now tables.now.lists.now run.old tables.now.k × (count ≤ most_records)
        × ((j : ℕ) → j < count → get_or run.old (kept_column + j) 0 < tables.now.k.records) }
    ensures { run.new ≡ noted 1 run.old
        (map (stamp_words tables.now.recs.now tables.now.lists.now) (part run.old kept_column
        (kept_column + count))) }
{
    for j in 0..count {
        let i = words::at(run, KEPT + j);
        note_record(tables, run, i, j + 1);
    }
}

// Whether a record is a root of one of the ask's queries.
#[tactic(auto, using(crate::proofs::Picking::goal_other, crate::proofs::Picking::goal_root))]
fn is_goal(recs: &[u32], a: Asked, i: usize) -> bool
    requires { (working_words ≤ length recs.now) × (i < most_records) × (a.end ≤ ask_room) }
    ensures { result ≡ is_goal recs.now a i }
{
    if words::at(recs, records::KIND + i) != records::ROOT {
        return false;
    }
    records::asks_for(recs, a, words::at(recs, records::FLAG + i))
}

// Notes the names of the roots of the ask's queries, by line, and gives the last stamp.
fn note_roots(tables: &RecordTables, run: &mut [u32], a: Asked, m: usize) -> usize
    requires { Notes tables.now.recs.now tables.now.lists.now run.old tables.now.k × (m ≤ most_records)
        × (a.end ≤ ask_room) }
    ensures noted { run.new ≡ noted (m + 1) run.old
        (map (stamp_words tables.now.recs.now tables.now.lists.now) (goal_records tables.now.recs.now
        tables.now.k a)) }
    ensures stamps { result ≡ m + length (goal_records tables.now.recs.now tables.now.k a) }
{
    let mut stamp = m;
    for i in 0..tables.k.records {
        if !is_goal(tables.recs, a, i) {
            continue;
        }
        stamp += 1;
        note_record(tables, run, i, stamp);
    }
    stamp
}

// Puts the ranks on the chains of their stamps.
fn link_names(tables: &RecordTables, run: &mut [u32])
    requires { IsIndexed tables.now × (working_words ≤ length run.old)
        × ((r : ℕ) → r < tables.now.k.names → stamp_in tables.now.names.now run.old r ≤ most_stamps) }
    ensures { Links tables.now.names.now run.old run.new tables.now.k.names }
{
    words::clear(run, HIGHEST, MOST_STAMPS);
    for r in 0..tables.k.names {
        let stamp = words::at(run, STAMP + words::at(tables.names, names::INDEX + r));
        if stamp == 0 {
            continue;
        }
        run[BELOW + r] = run[HIGHEST + (stamp - 1)];
        run[HIGHEST + (stamp - 1)] = (r + 1) as u32;
    }
}

// The definition, or the declaration, that took the name of a rank, and one; 0 if none did.
#[tactic(auto, using(crate::proofs::Picking::kind_none, crate::proofs::Picking::kind_not, crate::proofs::Picking::kind_is))]
fn kind_at(tables: &RecordTables, kind: usize, r: usize) -> usize
    requires { IsIndexed tables.now × (working_words ≤ length tables.now.recs.now) × (r < tables.now.k.names) }
    ensures { (result ≡ kind_at tables.now.names.now tables.now.recs.now kind r) × (result ≤ most_records) }
{
    let t = taker(tables, r);
    if t == 0 {
        return 0;
    }
    if words::at(tables.recs, records::KIND + (t - 1)) != kind {
        return 0;
    }
    t
}

// Lists the definitions, or the declarations, of the names with a stamp, last name first.
fn list_stamp(tables: &RecordTables, run: &mut [u32], kind: usize, stamp: usize, m: usize) -> usize
    requires { IsIndexed tables.now × (working_words ≤ length tables.now.recs.now) × (working_words ≤ length run.old)
        × Linked (stamp_in tables.now.names.now run.old) tables.now.k.names run.old × (0 < stamp)
        × (stamp ≤ most_stamps)
        × (m + length (stamp_records tables.now.names.now tables.now.recs.now tables.now.k.names
        (stamp_in tables.now.names.now run.old) kind
        stamp) ≤ most_records) }
    ensures { KeptBehind run.old m (stamp_records tables.now.names.now tables.now.recs.now tables.now.k.names
        (stamp_in tables.now.names.now run.old) kind stamp) run.new result }
{
    let mut to = m;
    let mut next = words::at(run, HIGHEST + (stamp - 1));
    // The ranks of a stamp are a chain through the slice, not a range: each says which comes next.
    while next != 0 {
        let t = kind_at(tables, kind, next - 1);
        next = words::at(run, BELOW + (next - 1));
        if t == 0 {
            continue;
        }
        run[KEPT + to] = (t - 1) as u32;
        to += 1;
    }
    to
}

// Lists the definitions, or the declarations, of the names with the stamps up to `stamps`, last noted first.
fn list_kind(tables: &RecordTables, run: &mut [u32], kind: usize, stamps: usize, m: usize) -> usize
    requires { IsIndexed tables.now × (working_words ≤ length tables.now.recs.now) × (working_words ≤ length run.old)
        × Linked (stamp_in tables.now.names.now run.old) tables.now.k.names run.old × (stamps ≤ most_stamps)
        × (m + length (kind_records tables.now.names.now tables.now.recs.now tables.now.k.names
        (stamp_in tables.now.names.now run.old) kind
        stamps) ≤ most_records) }
    ensures { KeptBehind run.old m (kind_records tables.now.names.now tables.now.recs.now tables.now.k.names
        (stamp_in tables.now.names.now run.old) kind stamps) run.new result }
{
    let mut to = m;
    for s in (0..stamps).rev() {
        to = list_stamp(tables, run, kind, s + 1, to);
    }
    to
}

// Lists the definitions and then the declarations of the names with the stamps up to `stamps`.
fn list_decls(tables: &RecordTables, run: &mut [u32], stamps: usize, m: usize) -> usize
    requires { IsIndexed tables.now × (working_words ≤ length tables.now.recs.now) × (working_words ≤ length run.old)
        × Linked (stamp_in tables.now.names.now run.old) tables.now.k.names run.old × (stamps ≤ most_stamps)
        × (m + length (decl_records tables.now.names.now tables.now.recs.now tables.now.k.names
        (stamp_in tables.now.names.now run.old) stamps) ≤ most_records) }
    ensures { KeptBehind run.old m (decl_records tables.now.names.now tables.now.recs.now tables.now.k.names
        (stamp_in tables.now.names.now run.old) stamps) run.new result }
{
    let defs = list_kind(tables, run, records::DEF, stamps, m);
    list_kind(tables, run, records::FUN, stamps, defs)
}

// Puts the definition of a name, if it has one, behind the queue.
#[tactic(auto, using(crate::proofs::Queueing::def_none, crate::proofs::Queueing::def_taken))]
fn queue_def(tables: &RecordTables, run: &mut [u32], n: usize, to: usize) -> usize
    requires { Readable tables.now.names.now tables.now.recs.now n × (working_words ≤ length run.old)
        × (to < most_names) }
    ensures { queue run.new result ≡ queue_def tables.now.names.now tables.now.recs.now
        (queue run.old to) n }
{
    let taken = words::at(tables.names, records::TAKEN + n);
    if !macros::is_def(tables.recs, taken) {
        return to;
    }
    run[QUEUE + to] = (taken - 1) as u32;
    to + 1
}

// Puts the definitions of the names with a stamp on the queue.
fn queue_noted(tables: &RecordTables, run: &mut [u32]) -> usize
    requires { (tables.now.k.names ≤ most_names)
        × ((n : ℕ) → n < tables.now.k.names → Readable tables.now.names.now tables.now.recs.now n)
        × (working_words ≤ length run.old) }
    ensures { QueueNoted tables.now.names.now tables.now.recs.now tables.now.k.names run.old
        (queue run.new result) }
{
    let mut end = 0;
    for n in 0..tables.k.names {
        if words::at(run, STAMP + n) == 0 {
            continue;
        }
        end = queue_def(tables, run, n, end);
    }
    end
}

// Follows a name that has no stamp: it gets that of the names that bodies add, and its definition stands behind the queue.
#[tactic(auto, using(crate::proofs::Following::follow_old, crate::proofs::Following::follow_new, crate::proofs::Following::next_length))]
fn follow_name(tables: &RecordTables, run: &mut [u32], n: usize, to: usize) -> usize
    requires { Readable tables.now.names.now tables.now.recs.now n × QueueRoom (queue run.old to) }
    ensures { queue run.new result ≡ follow_name tables.now.names.now tables.now.recs.now
        (queue run.old to) n }
{
    if words::at(run, STAMP + n) != 0 {
        return to;
    }
    run[STAMP + n] = FOLLOWED as u32;
    queue_def(tables, run, n, to)
}

// Follows the free names of a definition's body.
fn follow_body(tables: &RecordTables, run: &mut [u32], i: usize, m: usize) -> usize
    requires { Bodies tables.now.names.now tables.now.recs.now tables.now.lists.now tables.now.k
        × (i < tables.now.k.records) × QueueRoom (queue run.old m) }
    ensures { queue run.new result ≡ follow_names tables.now.names.now tables.now.recs.now
        (queue run.old m) (uses_at tables.now.recs.now tables.now.lists.now i) }
{
    let a = words::at(tables.recs, records::USES_START + i);
    let e = words::at(tables.recs, records::USES_END + i);
    let mut to = m;
    for j in a..e {
        to = follow_name(tables, run, words::at(tables.lists, j), to);
    }
    to
}

// Follows the bodies of the definitions of the names with a stamp and of those that these lead to, each once.
fn follow(tables: &RecordTables, run: &mut [u32])
    requires { Bodies tables.now.names.now tables.now.recs.now tables.now.lists.now tables.now.k
        × (working_words ≤ length run.old) }
    ensures { StampsFollowed tables.now.names.now tables.now.recs.now tables.now.lists.now tables.now.k run.old
        run.new }
{
    let noted = queue_noted(tables, run);
    let mut end = noted;
    let mut j = 0;
    // A range would keep the end that it starts with: here each body that is followed moves the end of the queue on.
    while j < end {
        let i = words::at(run, QUEUE + j);
        j += 1;
        end = follow_body(tables, run, i, end);
    }
}

// The record that took the name of a rank, and one, if a body adds the name; else 0.
#[tactic(auto, using(crate::proofs::Groups::added_not, crate::proofs::Groups::added_is))]
fn added_at(tables: &RecordTables, run: &[u32], r: usize) -> usize
    requires { IsIndexed tables.now × (working_words ≤ length run.now) × (r < tables.now.k.names) }
    ensures { (result ≡ added_at tables.now.names.now (stamp_in tables.now.names.now run.now) r)
        × (result ≤ most_records) }
{
    let n = words::at(tables.names, names::INDEX + r);
    if words::at(run, STAMP + n) != FOLLOWED {
        return 0;
    }
    taker(tables, r)
}

// Puts the records of the names that bodies add in the column of the queue, in byte order of name.
fn sweep_added(tables: &RecordTables, run: &mut [u32]) -> usize
    requires { IsIndexed tables.now × (working_words ≤ length run.old) }
    ensures { Behind queue_column run.old 0 (added_records tables.now.names.now tables.now.k.names
        (stamp_in tables.now.names.now run.old)) run.new result }
{
    let mut count = 0;
    for r in 0..tables.k.names {
        let t = added_at(tables, run, r);
        if t == 0 {
            continue;
        }
        run[QUEUE + count] = (t - 1) as u32;
        count += 1;
    }
    count
}

// Lists the definitions, or the declarations, among the records in the column of the queue.
fn list_added(recs: &[u32], run: &mut [u32], kind: usize, added: usize, m: usize) -> usize
    requires { (working_words ≤ length recs.now) × (working_words ≤ length run.old) × QueueRecords run.old added
        × (m + length (of_kind recs.now kind (queue_part run.old added)) ≤ most_records) }
    ensures { KeptBehind run.old m (of_kind recs.now kind (queue_part run.old added))
        run.new result }
{
    let mut to = m;
    for j in 0..added {
        let i = words::at(run, QUEUE + j);
        if words::at(recs, records::KIND + i) != kind {
            continue;
        }
        run[KEPT + to] = i as u32;
        to += 1;
    }
    to
}

// Lists the definitions, or the declarations, those noted and then those among the records in the column of the queue.
fn list_group(
    tables: &RecordTables,
    run: &mut [u32],
    kind: usize,
    stamps: usize,
    added: usize,
    m: usize,
) -> usize
    requires { IsIndexed tables.now × (working_words ≤ length tables.now.recs.now) × (working_words ≤ length run.old)
        × Linked (stamp_in tables.now.names.now run.old) tables.now.k.names run.old × (stamps ≤ most_stamps)
        × QueueRecords run.old added
        × (m + length (group_records tables.now.names.now tables.now.recs.now tables.now.k.names
        (stamp_in tables.now.names.now run.old)
        (queue_part run.old added) stamps kind) ≤ most_records) }
    ensures { KeptBehind run.old m (group_records tables.now.names.now tables.now.recs.now tables.now.k.names
        (stamp_in tables.now.names.now run.old) (queue_part run.old added) stamps kind)
        run.new result }
{
    let noted = list_kind(tables, run, kind, stamps, m);
    list_added(tables.recs, run, kind, added, noted)
}

// Lists the definitions and then the declarations, with those among the records in the column of the queue.
fn list_groups(
    tables: &RecordTables,
    run: &mut [u32],
    stamps: usize,
    added: usize,
    m: usize,
) -> usize
    requires { IsIndexed tables.now × (working_words ≤ length tables.now.recs.now) × (working_words ≤ length run.old)
        × Linked (stamp_in tables.now.names.now run.old) tables.now.k.names run.old × (stamps ≤ most_stamps)
        × QueueRecords run.old added
        × (m + length (groups_records tables.now.names.now tables.now.recs.now tables.now.k.names
        (stamp_in tables.now.names.now run.old)
        (queue_part run.old added) stamps) ≤ most_records) }
    ensures { KeptBehind run.old m (groups_records tables.now.names.now tables.now.recs.now tables.now.k.names
        (stamp_in tables.now.names.now run.old) (queue_part run.old added) stamps)
        run.new result }
{
    let defs = list_group(tables, run, records::DEF, stamps, added, m);
    list_group(tables, run, records::FUN, stamps, added, defs)
}

// Puts the line of each kept record in its place.
fn put_lines(recs: &[u32], run: &mut [u32], count: usize)
    requires { (working_words ≤ length recs.now) × (working_words ≤ length run.old) × (count ≤ most_records)
        × ((j : ℕ) → j < count → get_or run.old (kept_column + j) 0 < most_records) }
    ensures { KeptBehind run.old 0 (map (record_line recs.now)
        (part run.old kept_column (kept_column + count))) run.new count }
{
    for j in 0..count {
        let i = words::at(run, KEPT + j);
        run[KEPT + j] = recs[records::LINE + i];
    }
}

// Lists the kept records: the facts, and with option 4 definitions and then declarations; with option 8 too what the bodies of
// definitions add, at the end of each group.
fn list_records(tables: &RecordTables, run: &mut [u32], a: Asked) -> usize
    requires { Listable tables.now.names.now tables.now.recs.now tables.now.lists.now run.old tables.now.k a }
    ensures { RecordsListed tables.now.names.now tables.now.recs.now tables.now.lists.now run.old run.new tables.now.k
        a result }
{
    let facts = list_facts(tables, run, a);
    let options = options::options_of(a.options);
    if !options.prune_decls {
        return facts;
    }
    words::clear(run, STAMP, model::MOST_NAMES);
    note_facts(tables, run, facts);
    let stamps = note_roots(tables, run, a, facts);
    link_names(tables, run);
    if !options.follow_bodies {
        return list_decls(tables, run, stamps, facts);
    }
    follow(tables, run);
    let added = sweep_added(tables, run);
    list_groups(tables, run, stamps, added, facts)
}

// Lists the kept lines.
pub fn prune(file: &[u8], tables: &RecordTables, run: &mut [u32], a: Asked) -> usize
    requires { RunOver file.now tables.now.names.now tables.now.recs.now tables.now.lists.now run.old tables.now.k a }
    ensures { Pruned file.now tables.now.names.now tables.now.recs.now tables.now.lists.now run.old
        run.new tables.now.k a result }
{
    let count = list_records(tables, run, a);
    put_lines(tables.recs, run, count);
    count
}
