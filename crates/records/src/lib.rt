#![tactic(auto)]

ghost use Rattle.std.specs.Prelude.{◌≤◌, ◌<◌, ◌≡◌, [], length};
ghost use Rattle.model.specs.Reading.{head, hide, fun, def, retain, root, most_names, most_records};
ghost use Rattle.model.specs.Rounds.{asks_for};
ghost use Rattle.model.specs.Outcome.{working_words};
ghost use Rattle.names.specs.Table.{name_of};
ghost use Rattle.records.specs.Columns.{ask_room};
ghost use Rattle.records.specs.States.{takes_part, also_at, ask_of, asked_at};
ghost use Rattle.records.specs.Writing.{put_row, with_record, with_hide, Small, Rowed, with_ask, AskedAt};
ghost use Rattle.records.specs.Adding.{Standing, Adds, Untouched};

use model::{Asked, Counts, Refusal};

// The columns of the records slice, by the record's number.
pub const KIND: usize = 0;

pub const LINE: usize = 1024;

pub const NAME: usize = 2048;

pub const TERM: usize = 3072;

pub const FLAG: usize = 4096;

pub const USES_START: usize = 5120;

pub const USES_END: usize = 6144;

pub const ENTRIES_START: usize = 7168;

pub const ENTRIES_END: usize = 8192;

pub const SUMMARY: usize = 9216;

const GROUP: usize = 10240;

// Behind the records, by the position of an ask: its query, its options, the kind of its line, its groups.
const ASK_QUERY: usize = 11264;

const ASK_OPTIONS: usize = 11280;

const ASK_KIND: usize = 11296;

const ASK_GROUPS: usize = 11312;

// Kinds and codes are numbers here, since they are words of the lent slice, which functions compare and never take apart.
//
// The kinds of the lines of positions: an ask has a chain of its own, an also goes on with that of the position before.
pub const ASK: u32 = 0;

pub const ALSO: u32 = 1;

// The codes of a fact's kind; their number is added to that of triggers.
pub const DROP: usize = 0;

pub const AMBIENT: usize = 1;

pub const AMBIENT_ROOT: usize = 2;

pub const TRIGGERS: usize = 3;

// The kinds of records.
pub const ASSUME: usize = 0;

pub const FUN: usize = 1;

pub const DEF: usize = 2;

pub const RETAIN: usize = 3;

pub const ROOT: usize = 4;

pub const HIDE: usize = 5;

// The columns of the lists slice, by the entry's number: the record of its fact, the next older entry on its name and one.
pub const FACT: usize = 8192;

pub const NEXT: usize = 10240;

// The columns of the names slice, by the name's number: the record that took it and one, its macro word, the newest entry on it
// and one.
pub const TAKEN: usize = 10240;

pub const MACRO: usize = 12288;

pub const FIRST: usize = 14336;

// The slices that are written stay parameters here: as fields of one struct each that a function leaves alone wants a clause of
// its own.

// Writes the row of a record: a word for each of its eleven columns.
fn put_row(recs: &mut [u32], i: usize, row: &[u32])
    requires { (i < most_records) × (working_words ≤ length recs.old) × (length row.now ≡ 11) }
    ensures { recs.new ≡ put_row recs.old i 0 row.now }
{
    for c in 0..row.len() {
        recs[c * model::MOST_RECORDS + i] = row[c];
    }
}

// The counts with a record more.
pub fn with_record(k: Counts, named: usize, entries: usize, uses: usize, mark: usize) -> Counts
    requires { k.records < most_records }
    ensures { result ≡ with_record k named entries uses mark }
{
    Counts {
        names: named,
        records: k.records + 1,
        entries,
        uses,
        mark,
        ..k
    }
}

// The counts with a hide line more.
fn with_hide(k: Counts) -> Counts
    requires { (k.records < most_records) × (k.hides ≤ k.records) }
    ensures { result ≡ with_hide k }
{
    let next = with_record(k, k.names, k.entries, k.uses, k.mark);
    Counts {
        hides: k.hides + 1,
        ..next
    }
}

// Writes the row of the record after those counted: its free names and entries are those from the counts `k` on up to `next`.
pub fn put_record(
    recs: &mut [u32],
    k: Counts,
    next: Counts,
    kind: usize,
    line: usize,
    name: usize,
    term: usize,
    flag: usize,
    code: usize,
    group: usize,
)
    requires { (k.records < most_records) × (working_words ≤ length recs.old)
        × Small k next kind line name term flag code group }
    ensures { Rowed recs.old recs.new k next kind line name term flag code group }
{
    let row = [
        kind as u32,
        line as u32,
        name as u32,
        term as u32,
        flag as u32,
        k.uses as u32,
        next.uses as u32,
        k.entries as u32,
        next.entries as u32,
        code as u32,
        group as u32,
    ];
    put_row(recs, k.records, &row);
}

// Adds an ask, by the kind of its line, its query, its options number and its groups.
pub fn add_ask(
    recs: &mut [u32],
    k: Counts,
    kind: u32,
    query: u32,
    options: u32,
    groups: u32,
) -> Counts
    requires { (k.asks < ask_room) × (working_words ≤ length recs.old) }
    ensures counts { result ≡ with_ask k k.grouped }
    ensures ask { AskedAt recs.old recs.new k kind query options groups }
{
    let i = k.asks;
    recs[ASK_QUERY + i] = query;
    recs[ASK_OPTIONS + i] = options;
    recs[ASK_KIND + i] = kind;
    recs[ASK_GROUPS + i] = groups;
    Counts { asks: i + 1, ..k }
}

// Whether a position is that of an also line.
fn is_also(recs: &[u32], i: usize) -> bool
    requires { (i < ask_room) × (working_words ≤ length recs.now) }
    ensures { result ≡ also_at recs.now i }
{
    if i == 0 {
        return false;
    }
    recs[ASK_KIND + i] == ALSO
}

// The ask at a position: its chain starts at the last ask line.
pub fn ask_at(recs: &[u32], i: usize) -> Asked
    requires { (i < ask_room) × (working_words ≤ length recs.now) }
    ensures { result ≡ asked_at recs.now i }
{
    let mut first = i;
    // No range: how far back the last ask line stands is not known before.
    while is_also(recs, first) {
        first -= 1;
    }
    Asked {
        first,
        end: i + 1,
        options: words::at(recs, ASK_OPTIONS + first),
        groups: words::at(recs, ASK_GROUPS + first),
    }
}

// Whether a record is a fact that an ask admits.
pub fn takes_part(recs: &[u32], a: Asked, i: usize) -> bool
    requires { (i < most_records) × (working_words ≤ length recs.now) }
    ensures { result ≡ takes_part recs.now (ask_of recs.now a) i }
{
    if words::at(recs, KIND + i) != ASSUME {
        return false;
    }
    options::admits(a.groups, words::at(recs, GROUP + i))
}

// Whether a query is one of an ask's.
pub fn asks_for(recs: &[u32], a: Asked, q: usize) -> bool
    requires { (a.end ≤ ask_room) × (working_words ≤ length recs.now) }
    ensures { result ≡ asks_for (ask_of recs.now a) q }
{
    for i in (a.first..a.end).rev() {
        if words::at(recs, ASK_QUERY + i) == q {
            return true;
        }
    }
    false
}

// Adds a `hide` record, its name by number: the name is excluded from now on.
pub fn add_hide(
    file: &[u8],
    names: &mut [u32],
    refs: &[u32],
    rows: &[u32],
    recs: &mut [u32],
    lists: &[u32],
    k: Counts,
    line: usize,
    i: usize,
) -> Result<Counts, Refusal>
    requires { (k.names ≤ most_names → Standing file.now names.old refs.now rows.now recs.old lists.now k
        × (i < k.names)) × (line < 4294967296) }
    ensures record { Adds file.now names.old refs.now rows.now
        recs.old lists.now names.new rows.now recs.new lists.now k
        line (head (hide (name_of file.now names.old i))) result }
    ensures past { Untouched names.old rows.now recs.old lists.now
        names.new rows.now recs.new lists.now }
{
    if model::MOST_NAMES < k.names {
        return Err(Refusal::FullNames);
    }
    if model::MOST_RECORDS <= k.records {
        return Err(Refusal::FullRecords);
    }
    names::exclude(names, i);
    let next = with_hide(k);
    put_record(recs, k, next, HIDE, line, i, 0, 0, 0, 0);
    Ok(next)
}

// Adds a `retain` record.
pub fn add_retain(
    file: &[u8],
    names: &[u32],
    refs: &[u32],
    rows: &[u32],
    recs: &mut [u32],
    lists: &[u32],
    k: Counts,
    line: usize,
) -> Result<Counts, Refusal>
    requires { (k.names ≤ most_names → Standing file.now names.now refs.now rows.now recs.old lists.now k)
        × (line < 4294967296) }
    ensures record { Adds file.now names.now refs.now rows.now
        recs.old lists.now names.now rows.now recs.new lists.now k
        line (retain []) result }
    ensures past { Untouched names.now rows.now recs.old lists.now
        names.now rows.now recs.new lists.now }
{
    if model::MOST_NAMES < k.names {
        return Err(Refusal::FullNames);
    }
    if model::MOST_RECORDS <= k.records {
        return Err(Refusal::FullRecords);
    }
    let next = with_record(k, k.names, k.entries, k.uses, k.mark);
    put_record(recs, k, next, RETAIN, line, 0, 0, 0, 0, 0);
    Ok(next)
}

// Adds a `fun` record, its name by number.
pub fn add_fun(
    file: &[u8],
    names: &mut [u32],
    refs: &[u32],
    rows: &[u32],
    recs: &mut [u32],
    lists: &[u32],
    k: Counts,
    line: usize,
    i: usize,
) -> Result<Counts, Refusal>
    requires { (k.names ≤ most_names → Standing file.now names.old refs.now rows.now recs.old lists.now k
        × (i < k.names)) × (line < 4294967296) }
    ensures record { Adds file.now names.old refs.now rows.now
        recs.old lists.now names.new rows.now recs.new lists.now k
        line (fun (name_of file.now names.old i)) result }
    ensures past { Untouched names.old rows.now recs.old lists.now
        names.new rows.now recs.new lists.now }
{
    if model::MOST_NAMES < k.names {
        return Err(Refusal::FullNames);
    }
    if 0 < words::at(names, TAKEN + i) {
        return Err(Refusal::Repeated);
    }
    if model::MOST_RECORDS <= k.records {
        return Err(Refusal::FullRecords);
    }
    names[TAKEN + i] = (k.records + 1) as u32;
    let next = with_record(k, k.names, k.entries, k.uses, k.mark);
    put_record(recs, k, next, FUN, line, i, 0, 0, 0, 0);
    Ok(next)
}

// Adds a `def` record, its name and its term by number.
pub fn add_def(
    file: &[u8],
    names: &mut [u32],
    refs: &[u32],
    rows: &mut [u32],
    recs: &mut [u32],
    lists: &mut [u32],
    k: Counts,
    line: usize,
    i: usize,
    t: usize,
) -> Result<Counts, Refusal>
    requires { (k.names ≤ most_names → Standing file.now names.old refs.now rows.old recs.old lists.old k
        × (i < k.names)) × (t < k.terms) × (line < 4294967296) }
    ensures record { Adds file.now names.old refs.now rows.old
        recs.old lists.old names.new rows.new recs.new lists.new k
        line (def (name_of file.now names.old i) t) result }
    ensures past { Untouched names.old rows.old recs.old lists.old
        names.new rows.new recs.new lists.new }
{
    if model::MOST_NAMES < k.names {
        return Err(Refusal::FullNames);
    }
    if 0 < words::at(names, TAKEN + i) {
        return Err(Refusal::Repeated);
    }
    if model::MOST_RECORDS <= k.records {
        return Err(Refusal::FullRecords);
    }
    let mark = k.mark as u32;
    let uses = gather::gather_term(
        names,
        refs,
        rows,
        lists,
        k.names,
        k.references,
        k.terms,
        t,
        mark,
        k.uses,
        model::MOST_USES,
    )
    .ok_or(Refusal::FullTriggers)?;
    names[TAKEN + i] = (k.records + 1) as u32;
    let next = with_record(k, k.names, k.entries, uses, k.mark + 1);
    put_record(recs, k, next, DEF, line, i, t, 0, 0, 0);
    Ok(next)
}

// Adds a `root` record of a query, its name and its term by number.
pub fn add_root(
    file: &[u8],
    names: &mut [u32],
    refs: &[u32],
    rows: &mut [u32],
    recs: &mut [u32],
    lists: &mut [u32],
    k: Counts,
    line: usize,
    query: usize,
    i: usize,
    t: usize,
) -> Result<Counts, Refusal>
    requires { (k.names ≤ most_names → Standing file.now names.old refs.now rows.old recs.old lists.old k
        × (i < k.names)) × (t < k.terms) × (line < 4294967296) × (query < 256) }
    ensures record { Adds file.now names.old refs.now rows.old
        recs.old lists.old names.new rows.new recs.new lists.new k
        line (root query (name_of file.now names.old i) t) result }
    ensures past { Untouched names.old rows.old recs.old lists.old
        names.new rows.new recs.new lists.new }
{
    if model::MOST_NAMES < k.names {
        return Err(Refusal::FullNames);
    }
    if model::MOST_RECORDS <= k.records {
        return Err(Refusal::FullRecords);
    }
    let mark = k.mark as u32;
    let uses = gather::gather_term(
        names,
        refs,
        rows,
        lists,
        k.names,
        k.references,
        k.terms,
        t,
        mark,
        k.uses,
        model::MOST_USES,
    )
    .ok_or(Refusal::FullTriggers)?;
    let next = with_record(k, k.names, k.entries, uses, k.mark + 1);
    put_record(recs, k, next, ROOT, line, i, t, query, 0, 0);
    Ok(next)
}
