#![tactic(auto)]

ghost use Rattle.std.specs.Prelude.{ℕ, ◌+◌, ◌-◌, ◌≤◌, ◌<◌, ◌≡◌, List, [], ◌∷◌, map, length, get_or};
ghost use Rattle.model.specs.Lists.{collect, sum, part};
ghost use Rattle.model.specs.Names.{Name};
ghost use Rattle.model.specs.Reading.{most_names, most_terms, most_references};
ghost use Rattle.model.specs.Outcome.{working_words};
ghost use Rattle.model.specs.Summaries.{is_empty, free_top_level_names, group_names, triggers_of_term};
ghost use Rattle.terms.specs.Rows.{term_of, row_start, row_end, terms_of_words, terms_of, bare_of, groups_at, Rows};
ghost use Rattle.words.specs.Slices.{SameBut};
ghost use Rattle.gather.specs.Sets.{name_mark_column, row_mark_column, Named, Fresh};
ghost use Rattle.triggers.specs.Entries.{entries_column_end, Opened, Files, EntriesFilled, Closes};
ghost use Rattle.triggers.specs.Filings.{filing, file_list, file_groups, file_parts, ask_empty, AsksAs, FilesAs};

// Where the entries of the facts start in the slice, and where they end.
pub const ENTRIES: usize = 6144;

pub const ENTRIES_END: usize = 8192;

// The entry of a disjunct that has no name.
pub const NO_NAME: usize = 2048;

// What is added to the last entry of its disjunct.
pub const LAST: usize = 4096;

// The disjuncts that were filed: how many there are, and where their entries end. Every function that files answers none where
// there is no room for them.
#[derive(Clone, Copy)]
pub struct Filed {
    pub sets: usize,
    pub end: usize,
}

// The slices that are written stay parameters here: as fields of one struct each that a function leaves alone wants a clause of
// its own.

// Ends the disjunct whose names stand from `at` up to `end`: its last entry is marked, an empty disjunct takes one.
fn close(lists: &mut [u32], at: usize, end: usize) -> Option<Filed>
    requires { (at ≤ end) × (end ≤ entries_column_end) × (entries_column_end ≤ length lists.old)
        × (at < end → get_or lists.old (end - 1) 0 < most_names) }
    ensures { Closes lists.old lists.new at end result }
{
    if at < end {
        let last = words::at(lists, end - 1);
        lists[end - 1] = (last + LAST) as u32;
        return Some(Filed { sets: 1, end });
    }
    if ENTRIES_END <= at {
        return None;
    }
    lists[at] = (NO_NAME + LAST) as u32;
    Some(Filed {
        sets: 1,
        end: at + 1,
    })
}

// Files the free names of the terms that the references from `a` up to `e` name, as one disjunct.
fn file_list(
    names: &mut [u32],
    refs: &[u32],
    rows: &mut [u32],
    lists: &mut [u32],
    named: usize,
    used: usize,
    many: usize,
    a: usize,
    e: usize,
    mark: usize,
    at: usize,
) -> Option<Filed>
    requires { Rows refs.now rows.old used many named × Opened names.old rows.old lists.old mark at × (a ≤ e)
        × (e ≤ used) × ((i : ℕ) → a ≤ i → i < e → term_of (get_or refs.now i 0) < many) }
    ensures sets { (exclude : List Name) (name : ℕ → Name) → Named exclude name names.old named
        → Files name named (group_names exclude (terms_of name refs.now rows.old used many)
        (terms_of_words (part refs.now a e)) ∷ []) at lists.new result }
    ensures slices { EntriesFilled names.old rows.old lists.old names.new
        rows.new lists.new mark at result }
    ensures words { FilesAs (file_list refs.now used many
        (filing names.old rows.old lists.old mark at)
        (terms_of_words (part refs.now a e))) 1 names.new rows.new lists.new mark at
        result }
{
    let end = gather::gather_list(
        names,
        refs,
        rows,
        lists,
        named,
        used,
        many,
        a,
        e,
        mark as u32,
        at,
        ENTRIES_END,
    )?;
    close(lists, at, end)
}

// Files the free names of a term as one disjunct. Apart from `file_list`, which walks a list: a closure for the walk would hold
// three slices that are written.
pub fn file_term(
    names: &mut [u32],
    refs: &[u32],
    rows: &mut [u32],
    lists: &mut [u32],
    named: usize,
    used: usize,
    many: usize,
    t: usize,
    mark: usize,
    at: usize,
) -> Option<Filed>
    requires { Rows refs.now rows.old used many named × Opened names.old rows.old lists.old mark at × (t < many) }
    ensures sets { (exclude : List Name) (name : ℕ → Name) → Named exclude name names.old named
        → Files name named (free_top_level_names exclude (terms_of name refs.now rows.old used many) t
        ∷ []) at lists.new result }
    ensures slices { EntriesFilled names.old rows.old lists.old names.new
        rows.new lists.new mark at result }
    ensures words { FilesAs (file_list refs.now used many
        (filing names.old rows.old lists.old mark at) (t ∷ [])) 1 names.new
        rows.new lists.new mark at result }
{
    let end = gather::gather_term(
        names,
        refs,
        rows,
        lists,
        named,
        used,
        many,
        t,
        mark as u32,
        at,
        ENTRIES_END,
    )?;
    close(lists, at, end)
}

// Files the free names of two terms as two disjuncts.
pub fn file_terms(
    names: &mut [u32],
    refs: &[u32],
    rows: &mut [u32],
    lists: &mut [u32],
    named: usize,
    used: usize,
    many: usize,
    t: usize,
    u: usize,
    mark: usize,
    at: usize,
) -> Option<Filed>
    requires { Rows refs.now rows.old used many named × Opened names.old rows.old lists.old mark at × (t < many)
        × (u < many) }
    ensures sets { (exclude : List Name) (name : ℕ → Name) → Named exclude name names.old named
        → Files name named (free_top_level_names exclude (terms_of name refs.now rows.old used many) t
        ∷ free_top_level_names exclude (terms_of name refs.now rows.old used many) u ∷ []) at
        lists.new result }
    ensures slices { EntriesFilled names.old rows.old lists.old names.new
        rows.new lists.new mark at result }
    ensures words { FilesAs (file_list refs.now used many
        (file_list refs.now used many (filing names.old rows.old lists.old mark at)
        (t ∷ [])) (u ∷ [])) 2 names.new rows.new lists.new mark at result }
{
    let first = file_term(names, refs, rows, lists, named, used, many, t, mark, at)?;
    let second = file_term(
        names,
        refs,
        rows,
        lists,
        named,
        used,
        many,
        u,
        mark + (first.end - at),
        first.end,
    )?;
    Some(Filed {
        sets: 2,
        end: second.end,
    })
}

// The pattern groups of the `all` under a term's labels: how many there are, and where their references start and end.
#[derive(Clone, Copy)]
struct Patterns {
    count: usize,
    start: usize,
    end: usize,
}

// Reads them from the rows; a term that is no `all` has none.
fn pattern_groups(rows: &[u32], used: usize, many: usize, t: usize) -> Patterns
    requires { (working_words ≤ length rows.now) × (many ≤ most_terms) × (t < many) × (bare_of rows.now t < many)
        × (row_start rows.now (bare_of rows.now t) ≤ most_references) }
    ensures { (result.count ≡ groups_at rows.now t)
        × (result.start ≡ row_start rows.now (bare_of rows.now t) + 1)
        × (result.end ≡ row_end rows.now used many (bare_of rows.now t)) }
{
    let count = terms::group_count(rows, t);
    let u = terms::bare(rows, t);
    let start = terms::start(rows, u) + 1;
    let end = terms::end(rows, used, many, u);
    Patterns { count, start, end }
}

// `triggers_of_term`: files the pattern groups of the `all` under a term's labels, a disjunct each, in order.
pub fn triggers_of_term(
    names: &mut [u32],
    refs: &[u32],
    rows: &mut [u32],
    lists: &mut [u32],
    named: usize,
    used: usize,
    many: usize,
    t: usize,
    mark: usize,
    at: usize,
) -> Option<Filed>
    requires { Rows refs.now rows.old used many named × Opened names.old rows.old lists.old mark at × (t < many) }
    ensures sets { (exclude : List Name) (name : ℕ → Name) → Named exclude name names.old named
        → Files name named (triggers_of_term exclude (terms_of name refs.now rows.old used many) t) at
        lists.new result }
    ensures slices { EntriesFilled names.old rows.old lists.old names.new
        rows.new lists.new mark at result }
    ensures words { FilesAs (file_groups refs.now used many
        (filing names.old rows.old lists.old mark at) t) (groups_at rows.old t)
        names.new rows.new lists.new mark at result }
{
    let p = pattern_groups(rows, used, many, t);
    let groups = p.count;
    if groups == 0 {
        return Some(Filed { sets: 0, end: at });
    }
    let mut a = p.start;
    let e = p.end;
    let mut end = at;
    for g in 0..groups {
        let b = terms::group_end(refs, a, e, g);
        let filed = file_list(
            names,
            refs,
            rows,
            lists,
            named,
            used,
            many,
            a,
            b,
            mark + (end - at),
            end,
        )?;
        end = filed.end;
        a = b;
    }
    Some(Filed { sets: groups, end })
}

// Files the triggers of each term that the references from `a` up to `e` name, in order. A term without groups is passed over.
pub fn triggers_of_list(
    names: &mut [u32],
    refs: &[u32],
    rows: &mut [u32],
    lists: &mut [u32],
    named: usize,
    used: usize,
    many: usize,
    a: usize,
    e: usize,
    mark: usize,
    at: usize,
) -> Option<Filed>
    requires { Rows refs.now rows.old used many named × Opened names.old rows.old lists.old mark at × (a ≤ e)
        × (e ≤ used) × ((i : ℕ) → a ≤ i → i < e → term_of (get_or refs.now i 0) < many) }
    ensures sets { (exclude : List Name) (name : ℕ → Name) → Named exclude name names.old named
        → Files name named (collect (triggers_of_term exclude (terms_of name refs.now rows.old used many))
        (terms_of_words (part refs.now a e))) at lists.new result }
    ensures slices { EntriesFilled names.old rows.old lists.old names.new
        rows.new lists.new mark at result }
    ensures words { FilesAs (file_parts refs.now used many
        (filing names.old rows.old lists.old mark at)
        (terms_of_words (part refs.now a e))) (sum
        (map (groups_at rows.old) (terms_of_words (part refs.now a e)))) names.new
        rows.new lists.new mark at result }
{
    let mut end = at;
    let mut count = 0;
    for i in a..e {
        let t = terms::reference(refs, i);
        if terms::group_count(rows, t) == 0 {
            continue;
        }
        let filed = triggers_of_term(
            names,
            refs,
            rows,
            lists,
            named,
            used,
            many,
            t,
            mark + (end - at),
            end,
        )?;
        count += filed.sets;
        end = filed.end;
    }
    Some(Filed { sets: count, end })
}

// Whether a term has no trigger, or one empty set. No entry is filed; at most one mark is used.
pub fn is_empty(
    names: &mut [u32],
    refs: &[u32],
    rows: &mut [u32],
    lists: &mut [u32],
    named: usize,
    used: usize,
    many: usize,
    t: usize,
    mark: usize,
    at: usize,
) -> bool
    requires { Rows refs.now rows.old used many named × Opened names.old rows.old lists.old mark at × (t < many) }
    ensures answer { (exclude : List Name) (name : ℕ → Name) → Named exclude name names.old named → result
        ≡ is_empty (triggers_of_term exclude (terms_of name refs.now rows.old used many) t) }
    ensures tables { SameBut name_mark_column most_names names.old names.new
        × SameBut row_mark_column most_terms rows.old rows.new
        × Fresh names.new rows.new (mark + 1) }
    ensures words { AsksAs (ask_empty refs.now used many names.old rows.old t)
        names.old rows.old lists.old names.new rows.new lists.new
        mark result }
{
    let p = pattern_groups(rows, used, many, t);
    if p.count == 0 {
        return true;
    }
    if p.count != 1 {
        return false;
    }
    gather::gather_list(
        names,
        refs,
        rows,
        lists,
        named,
        used,
        many,
        p.start,
        p.end,
        mark as u32,
        at,
        at,
    )
    .is_some()
}
