#![tactic(auto)]

ghost use Rattle.std.specs.Prelude.{◌≤◌, ◌<◌, ◌≡◌};
ghost use Rattle.model.specs.Reading.{content, most_names, most_terms};
ghost use Rattle.model.specs.declared.LineKind.TheVariants as kind;
ghost use Rattle.text.specs.Parts.{Placed, fields_left};
ghost use Rattle.fields.specs.Wording.{record_line_kind};
ghost use Rattle.records.specs.Adding.{Standing, Untouched};
ghost use Rattle.filing.specs.Lines.{with_names, last_field, rest_of_root, AddsFact, LineRead};

use fields::RecordKind;
use model::{Counts, Refusal};
use text::Cursor;

const MOST_FLAG: u32 = 1;

// The group of every fact in the form without groups.
const ONLY_GROUP: u32 = 0;

// The counts with so many names.
fn spelled(k: Counts, named: usize) -> Counts
    ensures { result ≡ with_names k named }
{
    Counts { names: named, ..k }
}

// Reads the last field of a line, one of `many` terms.
fn last_term(file: &[u8], many: usize, c: Cursor) -> Result<usize, Refusal>
    requires { Placed file.now c × (many ≤ most_terms) }
    ensures { result ≡ last_field many (fields_left file.now c) }
{
    let (t, next) = c.term(file, many as u32)?;
    if next.at <= next.end {
        return Err(Refusal::Form);
    }
    Ok(t as usize)
}

// Reads a `hide`, from its name on. Like `read_fun` but for the record added: one function that is given the step to run would
// carry the contract of both, six slices long, which is no plainer. The lent slices stay apart, as C lends them.
pub fn read_hide(
    file: &[u8],
    names: &mut [u32],
    refs: &[u32],
    rows: &[u32],
    recs: &mut [u32],
    lists: &[u32],
    k: Counts,
    n: usize,
    c: Cursor,
) -> Result<Counts, Refusal>
    requires { Standing file.now names.old refs.now rows.now recs.old lists.now k × Placed file.now c
        × (n < 4294967296) }
    ensures { LineRead file.now names.old refs.now rows.now
        recs.old lists.now names.new refs.now rows.now recs.new
        lists.now k n (content kind.Hide k.grouped k.terms (fields_left file.now c)) result }
{
    let (i, named, last) = fields::read_name(file, names, k.names, c)?;
    if last.at <= last.end {
        return Err(Refusal::Form);
    }
    records::add_hide(
        file,
        names,
        refs,
        rows,
        recs,
        lists,
        spelled(k, named),
        n,
        i,
    )
}

// Reads a `fun`, from its name on.
fn read_fun(
    file: &[u8],
    names: &mut [u32],
    refs: &[u32],
    rows: &[u32],
    recs: &mut [u32],
    lists: &[u32],
    k: Counts,
    n: usize,
    c: Cursor,
) -> Result<Counts, Refusal>
    requires { Standing file.now names.old refs.now rows.now recs.old lists.now k × Placed file.now c
        × (n < 4294967296) }
    ensures { LineRead file.now names.old refs.now rows.now
        recs.old lists.now names.new refs.now rows.now recs.new
        lists.now k n (content kind.Fun k.grouped k.terms (fields_left file.now c)) result }
{
    let (i, named, last) = fields::read_name(file, names, k.names, c)?;
    if last.at <= last.end {
        return Err(Refusal::Form);
    }
    records::add_fun(
        file,
        names,
        refs,
        rows,
        recs,
        lists,
        spelled(k, named),
        n,
        i,
    )
}

// Reads a `def`, from its name on. Like `read_goal` but for the record added: no plainer as one, as with `read_hide`.
fn read_def(
    file: &[u8],
    names: &mut [u32],
    refs: &[u32],
    rows: &mut [u32],
    recs: &mut [u32],
    lists: &mut [u32],
    k: Counts,
    n: usize,
    c: Cursor,
) -> Result<Counts, Refusal>
    requires { Standing file.now names.old refs.now rows.old recs.old lists.old k × Placed file.now c
        × (n < 4294967296) }
    ensures { LineRead file.now names.old refs.now rows.old
        recs.old lists.old names.new refs.now rows.new recs.new
        lists.new k n (content kind.Def k.grouped k.terms (fields_left file.now c)) result }
{
    let (i, named, next) = fields::read_name(file, names, k.names, c)?;
    let t = last_term(file, k.terms, next)?;
    records::add_def(
        file,
        names,
        refs,
        rows,
        recs,
        lists,
        spelled(k, named),
        n,
        i,
        t,
    )
}

// Reads the flag, the group and the term of an `assume` whose name is spelled, and adds the fact.
fn read_fact(
    file: &[u8],
    names: &mut [u32],
    refs: &[u32],
    rows: &mut [u32],
    recs: &mut [u32],
    lists: &mut [u32],
    k: Counts,
    n: usize,
    i: usize,
    c: Cursor,
) -> Result<Counts, Refusal>
    requires { (k.names ≤ most_names → Standing file.now names.old refs.now rows.old recs.old lists.old k
        × (i < k.names)) × (k.terms ≤ most_terms) × Placed file.now c × (n < 4294967296) }
    ensures record { AddsFact file.now names.old refs.now rows.old
        recs.old lists.old names.new rows.new recs.new lists.new k n i
        (fields_left file.now c) result }
    ensures past { Untouched names.old rows.old recs.old lists.old
        names.new rows.new recs.new lists.new }
{
    let (flag, after) = c.number(file, MOST_FLAG)?;
    let (group, next) = fields::number_or(file, k.grouped, model::MOST_GROUP, ONLY_GROUP, after)?;
    let t = last_term(file, k.terms, next)?;
    facts::add_fact(
        file,
        names,
        refs,
        rows,
        recs,
        lists,
        k,
        n,
        i,
        flag as usize,
        group as usize,
        t,
    )
}

// Reads an `assume`, from its name on.
fn read_assume(
    file: &[u8],
    names: &mut [u32],
    refs: &[u32],
    rows: &mut [u32],
    recs: &mut [u32],
    lists: &mut [u32],
    k: Counts,
    n: usize,
    c: Cursor,
) -> Result<Counts, Refusal>
    requires { Standing file.now names.old refs.now rows.old recs.old lists.old k × Placed file.now c
        × (n < 4294967296) }
    ensures { LineRead file.now names.old refs.now rows.old
        recs.old lists.old names.new refs.now rows.new recs.new
        lists.new k n (content kind.Assume k.grouped k.terms (fields_left file.now c)) result }
{
    let (i, named, next) = fields::read_name(file, names, k.names, c)?;
    let known = spelled(k, named);
    read_fact(file, names, refs, rows, recs, lists, known, n, i, next)
}

// Reads a `retain`, from its first name on.
fn read_retain(
    file: &[u8],
    names: &mut [u32],
    refs: &[u32],
    rows: &[u32],
    recs: &mut [u32],
    lists: &[u32],
    k: Counts,
    n: usize,
    c: Cursor,
) -> Result<Counts, Refusal>
    requires { Standing file.now names.old refs.now rows.now recs.old lists.now k × Placed file.now c
        × (n < 4294967296) }
    ensures { LineRead file.now names.old refs.now rows.now
        recs.old lists.now names.new refs.now rows.now recs.new
        lists.now k n (content kind.Retain k.grouped k.terms (fields_left file.now c)) result }
{
    let (named, _) = fields::spell_rest(file, names, k.names, c)?;
    records::add_retain(file, names, refs, rows, recs, lists, spelled(k, named), n)
}

// Reads the name and the term of a `root` of a query, and adds the root.
fn read_goal(
    file: &[u8],
    names: &mut [u32],
    refs: &[u32],
    rows: &mut [u32],
    recs: &mut [u32],
    lists: &mut [u32],
    k: Counts,
    n: usize,
    q: usize,
    c: Cursor,
) -> Result<Counts, Refusal>
    requires { Standing file.now names.old refs.now rows.old recs.old lists.old k × Placed file.now c
        × (n < 4294967296) × (q < 256) }
    ensures { LineRead file.now names.old refs.now rows.old
        recs.old lists.old names.new refs.now rows.new recs.new
        lists.new k n (rest_of_root k.terms q (fields_left file.now c)) result }
{
    let (i, named, next) = fields::read_name(file, names, k.names, c)?;
    let t = last_term(file, k.terms, next)?;
    records::add_root(
        file,
        names,
        refs,
        rows,
        recs,
        lists,
        spelled(k, named),
        n,
        q,
        i,
        t,
    )
}

// Reads a `root`, from its query on.
fn read_root(
    file: &[u8],
    names: &mut [u32],
    refs: &[u32],
    rows: &mut [u32],
    recs: &mut [u32],
    lists: &mut [u32],
    k: Counts,
    n: usize,
    c: Cursor,
) -> Result<Counts, Refusal>
    requires { Standing file.now names.old refs.now rows.old recs.old lists.old k × Placed file.now c
        × (n < 4294967296) }
    ensures { LineRead file.now names.old refs.now rows.old
        recs.old lists.old names.new refs.now rows.new recs.new
        lists.new k n (content kind.Root k.grouped k.terms (fields_left file.now c)) result }
{
    let (q, next) = c.number(file, model::MOST_QUERY)?;
    read_goal(file, names, refs, rows, recs, lists, k, n, q as usize, next)
}

// Reads a record line other than `hide`, of a kind, from the field after the kind on.
pub fn read_record(
    file: &[u8],
    names: &mut [u32],
    refs: &[u32],
    rows: &mut [u32],
    recs: &mut [u32],
    lists: &mut [u32],
    k: Counts,
    n: usize,
    kind: RecordKind,
    c: Cursor,
) -> Result<Counts, Refusal>
    requires { Standing file.now names.old refs.now rows.old recs.old lists.old k × Placed file.now c
        × (n < 4294967296) }
    ensures { LineRead file.now names.old refs.now rows.old
        recs.old lists.old names.new refs.now rows.new recs.new
        lists.new k n (content (record_line_kind kind) k.grouped k.terms (fields_left file.now c)) result }
{
    match kind {
        RecordKind::Assume => read_assume(file, names, refs, rows, recs, lists, k, n, c),
        RecordKind::Fun => read_fun(file, names, refs, rows, recs, lists, k, n, c),
        RecordKind::Def => read_def(file, names, refs, rows, recs, lists, k, n, c),
        RecordKind::Retain => read_retain(file, names, refs, rows, recs, lists, k, n, c),
        RecordKind::Root => read_root(file, names, refs, rows, recs, lists, k, n, c),
    }
}
