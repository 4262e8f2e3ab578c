#![tactic(auto)]

ghost use Rattle.std.specs.Prelude.{◌+◌, ◌≤◌, ◌<◌, ◌≡◌, List, length, Ok};
ghost use Rattle.model.specs.Lists.{part};
ghost use Rattle.model.specs.Names.{Name};
ghost use Rattle.model.specs.Reading.{most_names, most_uses};
ghost use Rattle.model.specs.Outcome.{working_words};
ghost use Rattle.names.specs.Table.{Table, Excludes};
ghost use Rattle.terms.specs.Rows.{row_start, row_end, terms_of_words, terms_of, Rows};
ghost use Rattle.words.specs.Slices.{word_limit};
ghost use Rattle.gather.specs.Sets.{Fresh};
ghost use Rattle.rules.specs.Views.{Tables};
ghost use Rattle.rules.specs.Choices.{refinement_kind, parts_kind, Within};
ghost use Rattle.triggers.specs.Entries.{entries_base, entries_column_end};
ghost use Rattle.triggers.specs.Filings.{filing, file_parts};
ghost use Rattle.summary.specs.Facts.{Asked, fact_summary, limited, Lists, Slices};
ghost use Rattle.summary.specs.Steps.{FilingBegun, Sorts, SortsAs, Two, Tokens, Chooses, Finishes, sorted_of};
ghost use Rattle.summary.specs.Writing.{file_refinement, file_choice, file_fact, Written};

use model::AsumKind;
use names::Spelled;
use rules::Choice;
use rules::tables::TermTables;
use triggers::Filed;

// The limits that a fact may pass, in the order in which they are tried: names, trigger entries, name uses.
#[derive(Clone, Copy)]
pub enum Limit {
    Names,
    Entries,
    Uses,
}

// The kind of a fact, where its trigger entries end, and how many names the table has.
#[derive(Clone, Copy)]
struct Sorted {
    kind: AsumKind,
    end: usize,
    total: usize,
}

// A fact's summary. Its trigger entries and its free names stand in the lent slice: where each of these lists ends, counted
// from the list's start in the slice; how many names the table has, and the next mark.
#[derive(Clone, Copy)]
pub struct Summary {
    pub kind: AsumKind,
    pub entries: usize,
    pub uses: usize,
    pub named: usize,
    pub mark: usize,
}

// The slices that are written stay parameters here: as fields of one struct each that a function leaves alone wants a clause of
// its own.

// Files two names as two disjuncts.
fn put_two(lists: &mut [u32], named: usize, n: usize, m: usize, at: usize) -> Result<Sorted, Limit>
    requires { (n < most_names) × (m < most_names) × (at ≤ entries_column_end) × (working_words ≤ length lists.old) }
    ensures { Two lists.old lists.new named n m at result }
{
    if triggers::ENTRIES_END <= at + 1 {
        return Err(Limit::Entries);
    }
    lists[at] = (n + triggers::LAST) as u32;
    lists[at + 1] = (m + triggers::LAST) as u32;
    Ok(Sorted {
        kind: AsumKind::Triggers(2),
        end: at + 2,
        total: named,
    })
}

// Files the name of a token as a disjunct; where it ends in @tok, the name without it as another, entered in the table.
fn file_token(
    file: &[u8],
    names: &mut [u32],
    lists: &mut [u32],
    named: usize,
    n: usize,
    at: usize,
) -> Result<Sorted, Limit>
    requires { Table file.now names.old named × (n < named) × (at ≤ entries_column_end) × (working_words ≤ length lists.old) }
    ensures { Tokens file.now names.old lists.old names.new lists.new
        named n at result }
{
    let a = words::at(names, n);
    let e = a + words::at(names, names::LENGTH + n);
    if !text::ends_with(file, a, e, b"@tok") {
        if triggers::ENTRIES_END <= at {
            return Err(Limit::Entries);
        }
        lists[at] = (n + triggers::LAST) as u32;
        return Ok(Sorted {
            kind: AsumKind::Triggers(1),
            end: at + 1,
            total: named,
        });
    }
    match names::spell(file, names, named, a, e - 4) {
        Spelled::Known(m) => put_two(lists, named, n, m, at),
        Spelled::New(m) => put_two(lists, named + 1, n, m, at),
        Spelled::Full => Err(Limit::Names),
    }
}

// Filed disjuncts as a kind.
fn filed(f: Option<Filed>, named: usize) -> Result<Sorted, Limit>
    ensures { result ≡ sorted_of named f }
{
    let f = f.ok_or(Limit::Entries)?;
    Ok(Sorted {
        kind: AsumKind::Triggers(f.sets),
        end: f.end,
        total: named,
    })
}

// The triggers of a refinement's payload; without any, or with one empty set, the fact is an ambient root.
fn file_refinement(
    names: &mut [u32],
    refs: &[u32],
    rows: &mut [u32],
    lists: &mut [u32],
    named: usize,
    used: usize,
    many: usize,
    t: usize,
    mark: usize,
    at: usize,
) -> Result<Sorted, Limit>
    requires { Rows refs.now rows.old used many named × FilingBegun names.old rows.old lists.old mark at × (t < many) }
    ensures kinds { Sorts names.old rows.old lists.old names.new
        rows.new lists.new named mark at
        (λ exclude name. refinement_kind exclude (terms_of name refs.now rows.old used many) t) result }
    ensures words { SortsAs (file_refinement refs.now used many mark
        (filing names.old rows.old lists.old (mark + 1) at) t) names.new
        rows.new lists.new mark at result }
{
    if triggers::is_empty(names, refs, rows, lists, named, used, many, t, mark, at) {
        return Ok(Sorted {
            kind: AsumKind::Ambient(true),
            end: at,
            total: named,
        });
    }
    filed(
        triggers::triggers_of_term(names, refs, rows, lists, named, used, many, t, mark + 1, at),
        named,
    )
}

// The triggers of each part of an `and`. Apart from a refinement's, since each has the kind of its own choice.
fn file_parts(
    names: &mut [u32],
    refs: &[u32],
    rows: &mut [u32],
    lists: &mut [u32],
    named: usize,
    used: usize,
    many: usize,
    t: usize,
    mark: usize,
    at: usize,
) -> Result<Sorted, Limit>
    requires { Rows refs.now rows.old used many named × FilingBegun names.old rows.old lists.old mark at × (t < many) }
    ensures kinds { Sorts names.old rows.old lists.old names.new
        rows.new lists.new named mark at
        (λ exclude name. parts_kind exclude (terms_of name refs.now rows.old used many) t) result }
    ensures words { SortsAs (file_parts refs.now used many
        (filing names.old rows.old lists.old (mark + 1) at)
        (terms_of_words (part refs.now (row_start rows.old t) (row_end rows.old used many t))))
        names.new rows.new lists.new mark at result }
{
    let a = terms::start(rows, t);
    let e = terms::end(rows, used, many, t);
    filed(
        triggers::triggers_of_list(
            names,
            refs,
            rows,
            lists,
            named,
            used,
            many,
            a,
            e,
            mark + 1,
            at,
        ),
        named,
    )
}

// Files the disjuncts of a choice from `at` on, under marks after `mark`.
fn file_choice(
    file: &[u8],
    names: &mut [u32],
    refs: &[u32],
    rows: &mut [u32],
    lists: &mut [u32],
    named: usize,
    used: usize,
    many: usize,
    choice: Choice,
    mark: usize,
    at: usize,
) -> Result<Sorted, Limit>
    requires { Tables file.now names.old refs.now rows.old named used many × Within named many choice
        × FilingBegun names.old rows.old lists.old mark at }
    ensures kinds { Chooses file.now names.old refs.now rows.old
        lists.old names.new rows.new lists.new named used many mark at choice result }
    ensures words { SortsAs (file_choice refs.now used many file.now named mark
        (filing names.old rows.old lists.old (mark + 1) at) choice) names.new
        rows.new lists.new mark at result }
{
    match choice {
        Choice::One(t) => filed(
            triggers::file_term(names, refs, rows, lists, named, used, many, t, mark + 1, at),
            named,
        ),
        Choice::Two(t, u) => filed(
            triggers::file_terms(
                names,
                refs,
                rows,
                lists,
                named,
                used,
                many,
                t,
                u,
                mark + 1,
                at,
            ),
            named,
        ),
        Choice::Groups(t) => filed(
            triggers::triggers_of_term(
                names,
                refs,
                rows,
                lists,
                named,
                used,
                many,
                t,
                mark + 1,
                at,
            ),
            named,
        ),
        Choice::Refinement(t) => {
            file_refinement(names, refs, rows, lists, named, used, many, t, mark, at)
        }
        Choice::Token(n) => file_token(file, names, lists, named, n, at),
        Choice::Nothing => Ok(Sorted {
            kind: AsumKind::Triggers(0),
            end: at,
            total: named,
        }),
        Choice::Parts(t) => file_parts(names, refs, rows, lists, named, used, many, t, mark, at),
        Choice::Drop => Ok(Sorted {
            kind: AsumKind::Drop,
            end: at,
            total: named,
        }),
        Choice::Ambient => Ok(Sorted {
            kind: AsumKind::Ambient(false),
            end: at,
            total: named,
        }),
    }
}

// Gathers the free names of a fact's term behind those of the facts before it, and makes the summary.
fn finish(
    names: &mut [u32],
    refs: &[u32],
    rows: &mut [u32],
    lists: &mut [u32],
    named: usize,
    total: usize,
    used: usize,
    many: usize,
    t: usize,
    kind: AsumKind,
    end: usize,
    mark: usize,
    uses: usize,
) -> Result<Summary, Limit>
    requires { Rows refs.now rows.old used many named × (working_words ≤ length names.old) × (t < many)
        × Fresh names.old rows.old mark × (mark + 1 < word_limit) × (entries_base ≤ end) × (uses ≤ most_uses)
        × (working_words ≤ length lists.old) }
    ensures { Finishes names.old refs.now rows.old lists.old
        names.new rows.new lists.new named total used many t kind end mark uses result }
{
    let n = gather::gather_term(
        names,
        refs,
        rows,
        lists,
        named,
        used,
        many,
        t,
        mark as u32,
        uses,
        model::MOST_USES,
    )
    .ok_or(Limit::Uses)?;
    Ok(Summary {
        kind,
        entries: end - triggers::ENTRIES,
        uses: n,
        named: total,
        mark: mark + 1,
    })
}

// `summarize_assumption`: the kind of a fact, its disjuncts from entry `entries` on, and its free names from use `uses` on.
pub fn summarize_assumption(
    file: &[u8],
    names: &mut [u32],
    refs: &[u32],
    rows: &mut [u32],
    lists: &mut [u32],
    named: usize,
    used: usize,
    many: usize,
    name: usize,
    t: usize,
    mark: usize,
    entries: usize,
    uses: usize,
) -> Result<Summary, Limit>
    requires { Asked file.now names.old refs.now rows.old lists.old named used many name t mark entries uses }
    ensures answer { (exclude : List Name) → Excludes exclude file.now names.old named → result
        ≡ limited (fact_summary exclude file.now names.old refs.now rows.old named
        used many name t mark entries uses) }
    ensures sets { (exclude : List Name) → Excludes exclude file.now names.old named
        → (s : Summary) → result ≡ Ok s → Lists exclude file.now names.old refs.now
        rows.old named used many name t names.new rows.new lists.new entries uses s }
    ensures slices { Slices names.old rows.old lists.old names.new
        rows.new lists.new entries uses }
    ensures words { Written (file_fact refs.now used many file.now names.old
        rows.old lists.old named name t mark entries uses) names.new rows.new
        lists.new }
{
    let tables = TermTables {
        file,
        names: &*names,
        refs,
        rows: &*rows,
        named,
        used,
        many,
    };
    let choice = tables.summarize_kind(name, t);
    let at = triggers::ENTRIES + entries;
    let sorted = file_choice(
        file, names, refs, rows, lists, named, used, many, choice, mark, at,
    )?;
    finish(
        names,
        refs,
        rows,
        lists,
        named,
        sorted.total,
        used,
        many,
        t,
        sorted.kind,
        sorted.end,
        mark + 1 + (sorted.end - at),
        uses,
    )
}
