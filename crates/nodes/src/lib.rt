#![tactic(auto)]

ghost use Rattle.std.specs.Prelude.{◌≤◌, ◌≡◌};
ghost use Rattle.model.specs.Summaries.{op_number};
ghost use Rattle.model.specs.Reading.{most_terms};
ghost use Rattle.model.specs.declared.LineKind.TheVariants as kind;
ghost use Rattle.text.specs.Parts.{Placed};
ghost use Rattle.fields.specs.Wording.{term_kind};
ghost use Rattle.fields.specs.Pushing.{Pushable};
ghost use Rattle.nodes.specs.Growing.{Quantifies, quantifier_kind, WithinLimits, grown_to, Stands, ReadsTerm};

use fields::TermKind;
use model::{Counts, Op, Refusal};
use text::Cursor;

// The file, the three tables and the counts stay loose parameters: a struct of lent slices costs a clause for each slice that a
// function leaves as it was.

// Pushes the body and the groups of an `all` or a `some`, after which no field is left: where the references end then, and how
// many groups there are.
fn push_quantifier(
    file: &[u8],
    refs: &mut [u32],
    from: usize,
    many: usize,
    c: Cursor,
) -> Result<(usize, usize), Refusal>
    requires { Pushable file.now refs.old from many c }
    ensures { Quantifies file.now refs.old refs.new from many c result }
{
    let (one, next) = fields::push_term(file, refs, from, many, 0, c)?;
    let (groups, after) = next.number(file, text::MOST_NUMBER)?;
    let (used, last) = fields::push_groups(file, refs, one, many, groups as usize, after)?;
    if last.at <= last.end {
        return Err(Refusal::Form);
    }
    Ok((used, groups as usize))
}

// The refusal of the limit that so many names and references pass, the names asked first.
fn within_limits(named: usize, used: usize) -> Result<(), Refusal>
    ensures { WithinLimits named used result }
{
    if model::MOST_NAMES < named {
        return Err(Refusal::FullNames);
    }
    if model::MOST_REFERENCES < used {
        return Err(Refusal::FullTerms);
    }
    Ok(())
}

// The counts with one term more, where its row was added.
fn grown(
    added: Result<(), Refusal>,
    k: Counts,
    named: usize,
    used: usize,
) -> Result<Counts, Refusal>
    requires { k.terms ≤ most_terms }
    ensures { result ≡ grown_to added k named used }
{
    added?;
    Ok(Counts {
        names: named,
        references: used,
        terms: k.terms + 1,
        ..k
    })
}

// The number of an op word.
#[tactic(auto, unfolding(model::specs::Summaries::op_number))]
fn op_number(op: Op) -> usize
    ensures { result ≡ op_number op }
{
    op as usize
}

// Reads a `free`, from its name on.
fn read_free(
    file: &[u8],
    names: &mut [u32],
    refs: &[u32],
    rows: &mut [u32],
    k: Counts,
    c: Cursor,
) -> Result<Counts, Refusal>
    requires { Stands file.now names.old refs.now rows.old k × Placed file.now c }
    ensures { ReadsTerm file.now names.old refs.now rows.old
        names.new refs.now rows.new k kind.Free c result }
{
    let (n, named, next) = fields::read_name(file, names, k.names, c)?;
    if next.at <= next.end {
        return Err(Refusal::Form);
    }
    let used = k.references;
    within_limits(named, used)?;
    grown(
        additions::add_free(refs, rows, used, k.terms, named, n),
        k,
        named,
        used,
    )
}

// Reads a `leaf`, which has no field after its kind.
fn read_leaf(
    file: &[u8],
    names: &[u32],
    refs: &[u32],
    rows: &mut [u32],
    k: Counts,
    c: Cursor,
) -> Result<Counts, Refusal>
    requires { Stands file.now names.now refs.now rows.old k × Placed file.now c }
    ensures { ReadsTerm file.now names.now refs.now rows.old
        names.now refs.now rows.new k kind.Leaf c result }
{
    if c.at <= c.end {
        return Err(Refusal::Form);
    }
    let used = k.references;
    let named = k.names;
    grown(
        additions::add_leaf(refs, rows, used, k.terms, named),
        k,
        named,
        used,
    )
}

// Reads a `call`, from its name on. Each kind adds its row by its own function, whose contract names the node that it is.
fn read_call(
    file: &[u8],
    names: &mut [u32],
    refs: &mut [u32],
    rows: &mut [u32],
    k: Counts,
    c: Cursor,
) -> Result<Counts, Refusal>
    requires { Stands file.now names.old refs.old rows.old k × Placed file.now c }
    ensures { ReadsTerm file.now names.old refs.old rows.old
        names.new refs.new rows.new k kind.Call c result }
{
    let start = k.references;
    let many = k.terms;
    let (n, named, next) = fields::read_name(file, names, k.names, c)?;
    let (used, _) = fields::push_rest(file, refs, start, many, next)?;
    within_limits(named, used)?;
    grown(
        additions::add_call(refs, rows, start, used, many, named, n),
        k,
        named,
        used,
    )
}

// Reads an `op`, from its word on.
fn read_op(
    file: &[u8],
    names: &[u32],
    refs: &mut [u32],
    rows: &mut [u32],
    k: Counts,
    c: Cursor,
) -> Result<Counts, Refusal>
    requires { Stands file.now names.now refs.old rows.old k × Placed file.now c }
    ensures { ReadsTerm file.now names.now refs.old rows.old
        names.now refs.new rows.new k kind.Op c result }
{
    let start = k.references;
    let many = k.terms;
    let named = k.names;
    let (op, next) = fields::read_op_word(file, c)?;
    let (used, _) = fields::push_rest(file, refs, start, many, next)?;
    within_limits(named, used)?;
    let word = op_number(op);
    grown(
        additions::add_op(refs, rows, start, used, many, named, word),
        k,
        named,
        used,
    )
}

// Reads an `all`, or else a `some`, from its body on.
fn read_quantifier(
    file: &[u8],
    names: &[u32],
    refs: &mut [u32],
    rows: &mut [u32],
    k: Counts,
    all: bool,
    c: Cursor,
) -> Result<Counts, Refusal>
    requires { Stands file.now names.now refs.old rows.old k × Placed file.now c }
    ensures { ReadsTerm file.now names.now refs.old rows.old
        names.now refs.new rows.new k (quantifier_kind all) c result }
{
    let start = k.references;
    let many = k.terms;
    let named = k.names;
    let (used, groups) = push_quantifier(file, refs, start, many, c)?;
    within_limits(named, used)?;
    if all {
        return grown(
            additions::add_all(refs, rows, start, used, many, named, groups),
            k,
            named,
            used,
        );
    }
    grown(
        additions::add_some(refs, rows, start, used, many, named, groups),
        k,
        named,
        used,
    )
}

// Reads a `let`, from its body on.
fn read_let(
    file: &[u8],
    names: &[u32],
    refs: &mut [u32],
    rows: &mut [u32],
    k: Counts,
    c: Cursor,
) -> Result<Counts, Refusal>
    requires { Stands file.now names.now refs.old rows.old k × Placed file.now c }
    ensures { ReadsTerm file.now names.now refs.old rows.old
        names.now refs.new rows.new k kind.Let c result }
{
    let start = k.references;
    let many = k.terms;
    let named = k.names;
    let (one, next) = fields::push_term(file, refs, start, many, 0, c)?;
    let (used, _) = fields::push_rest(file, refs, one, many, next)?;
    within_limits(named, used)?;
    grown(
        additions::add_let(refs, rows, start, used, many, named),
        k,
        named,
        used,
    )
}

// Reads a `label`, from its term on.
fn read_label(
    file: &[u8],
    names: &[u32],
    refs: &mut [u32],
    rows: &mut [u32],
    k: Counts,
    c: Cursor,
) -> Result<Counts, Refusal>
    requires { Stands file.now names.now refs.old rows.old k × Placed file.now c }
    ensures { ReadsTerm file.now names.now refs.old rows.old
        names.now refs.new rows.new k kind.Label c result }
{
    let start = k.references;
    let many = k.terms;
    let named = k.names;
    let (_, next) = fields::push_term(file, refs, start, many, 0, c)?;
    if next.at <= next.end {
        return Err(Refusal::Form);
    }
    let used = start + 1;
    within_limits(named, used)?;
    grown(
        additions::add_label(refs, rows, start, many, named),
        k,
        named,
        used,
    )
}

// Reads a term line of a kind, from the first field after the kind on.
pub fn read_term(
    file: &[u8],
    names: &mut [u32],
    refs: &mut [u32],
    rows: &mut [u32],
    k: Counts,
    kind: TermKind,
    c: Cursor,
) -> Result<Counts, Refusal>
    requires { Stands file.now names.old refs.old rows.old k × Placed file.now c }
    ensures { ReadsTerm file.now names.old refs.old rows.old
        names.new refs.new rows.new k (term_kind kind) c result }
{
    match kind {
        TermKind::Free => read_free(file, names, refs, rows, k, c),
        TermKind::Leaf => read_leaf(file, names, refs, rows, k, c),
        TermKind::Call => read_call(file, names, refs, rows, k, c),
        TermKind::Op => read_op(file, names, refs, rows, k, c),
        TermKind::All => read_quantifier(file, names, refs, rows, k, true, c),
        TermKind::Some => read_quantifier(file, names, refs, rows, k, false, c),
        TermKind::Let => read_let(file, names, refs, rows, k, c),
        TermKind::Label => read_label(file, names, refs, rows, k, c),
    }
}
