#![tactic(auto)]

ghost use Rattle.std.specs.Prelude.{◌≤◌, ◌<◌, ◌≡◌, length, eqb};
ghost use Rattle.model.specs.Reading.{assume, most_group, most_names, most_records, most_entries};
ghost use Rattle.model.specs.Outcome.{working_words};
ghost use Rattle.names.specs.Table.{name_of};
ghost use Rattle.records.specs.Columns.{code_of};
ghost use Rattle.records.specs.Filing.{Chained};
ghost use Rattle.records.specs.Adding.{Standing, Adds, Untouched};
ghost use Rattle.facts.specs.Putting.{Chains, Puttable, Puts};
ghost use Rattle.facts.specs.Refusing.{behind_records, over_refusal};

use model::{AsumKind, Counts, Refusal};
use summary::{Limit, Summary};

// The lent slices stay parameters here: as fields of one struct each that a function leaves alone wants a clause of its own.

// Puts the entries from `from` on up to `to`, which are those of the record `fact`, on the chains of their names.
fn chain_entries(names: &mut [u32], lists: &mut [u32], from: usize, to: usize, fact: usize)
    requires { Chained names.old lists.old from × (from ≤ to) × (to ≤ most_entries) × (fact < most_records)
        × (working_words ≤ length names.old) × (working_words ≤ length lists.old) }
    ensures { Chains names.old lists.old names.new lists.new from to fact }
{
    for e in from..to {
        let n = words::at(lists, triggers::ENTRIES + e) % triggers::LAST;
        lists[records::FACT + e] = fact as u32;
        if triggers::NO_NAME <= n {
            continue;
        }
        lists[records::NEXT + e] = names[records::FIRST + n];
        names[records::FIRST + n] = (e + 1) as u32;
    }
}

// The code of a fact's kind. No `From`, which has no `requires`: the code has to fit in a word.
fn code(kind: AsumKind) -> usize
    requires { code_of kind < 4294967296 }
    ensures { result ≡ code_of kind }
{
    match kind {
        AsumKind::Drop => records::DROP,
        AsumKind::Ambient(root) => {
            if root {
                return records::AMBIENT_ROOT;
            }
            records::AMBIENT
        }
        AsumKind::Triggers(n) => records::TRIGGERS + n,
    }
}

// Puts the summary of a fact into the tables: its name is taken, its row written, its entries put on their chains.
fn put_fact(
    names: &mut [u32],
    recs: &mut [u32],
    lists: &mut [u32],
    k: Counts,
    line: usize,
    name: usize,
    flag: usize,
    group: usize,
    t: usize,
    s: Summary,
) -> Counts
    requires { Puttable names.old recs.old lists.old k line name flag group t s }
    ensures { Puts names.old recs.old lists.old names.new recs.new
        lists.new k line name flag group t s result }
{
    let kind = s.kind;
    let word = code(kind);
    names[records::TAKEN + name] = (k.records + 1) as u32;
    let next = records::with_record(k, s.named, s.entries, s.uses, s.mark);
    records::put_record(
        recs,
        k,
        next,
        records::ASSUME,
        line,
        name,
        t,
        flag,
        word,
        group,
    );
    chain_entries(names, lists, k.entries, s.entries, k.records);
    next
}

// The refusal where a line passes the limit of entries or of uses: the record lines come before them.
fn behind_records(records: usize) -> Refusal
    ensures { result ≡ behind_records records }
{
    if model::MOST_RECORDS <= records {
        return Refusal::FullRecords;
    }
    Refusal::FullTriggers
}

// The refusal where a fact passes a limit of its summary: names come before all others. No `From`: entries and uses are refused
// by how many records there are.
fn over_refusal(limit: Limit, records: usize) -> Refusal
    ensures { result ≡ over_refusal limit records }
{
    match limit {
        Limit::Names => Refusal::FullNames,
        Limit::Entries => behind_records(records),
        Limit::Uses => behind_records(records),
    }
}

// Adds the fact of an `assume` record, its name and its term by number: its entries stand in the tables whatever its flag and
// its group.
pub fn add_fact(
    file: &[u8],
    names: &mut [u32],
    refs: &[u32],
    rows: &mut [u32],
    recs: &mut [u32],
    lists: &mut [u32],
    k: Counts,
    line: usize,
    name: usize,
    flag: usize,
    group: usize,
    t: usize,
) -> Result<Counts, Refusal>
    requires { (k.names ≤ most_names → Standing file.now names.old refs.now rows.old recs.old lists.old k
        × (name < k.names)) × (t < k.terms) × (line < 4294967296) × (flag < 2)
        × (group ≤ most_group) }
    ensures record { Adds file.now names.old refs.now rows.old
        recs.old lists.old names.new rows.new recs.new lists.new k
        line (assume (name_of file.now names.old name) (eqb flag 1) group t) result }
    ensures past { Untouched names.old rows.old recs.old lists.old
        names.new rows.new recs.new lists.new }
{
    let count = k.records;
    if model::MOST_NAMES < k.names {
        return Err(Refusal::FullNames);
    }
    if 0 < words::at(names, records::TAKEN + name) {
        return Err(Refusal::Repeated);
    }
    match summary::summarize_assumption(
        file,
        names,
        refs,
        rows,
        lists,
        k.names,
        k.references,
        k.terms,
        name,
        t,
        k.mark,
        k.entries,
        k.uses,
    ) {
        Ok(s) => {
            if model::MOST_RECORDS <= count {
                return Err(Refusal::FullRecords);
            }
            Ok(put_fact(names, recs, lists, k, line, name, flag, group, t, s))
        }
        Err(limit) => Err(over_refusal(limit, count)),
    }
}
