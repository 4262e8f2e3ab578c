#![tactic(auto)]

ghost use Rattle.std.specs.Prelude.{◌+◌, ◌*◌, ◌≤◌, ◌<◌, ◌≡◌, length, get_or};
ghost use Rattle.model.specs.Lists.{part};
ghost use Rattle.model.specs.Terms.{free_v, leaf, call, app, forall, exists, let_in, labeled};
ghost use Rattle.model.specs.Reading.{most_names, most_terms, most_references};
ghost use Rattle.model.specs.Outcome.{working_words};
ghost use Rattle.terms.specs.Rows.{term_of, free_kind, leaf_kind, call_kind, op_kind, all_kind, some_kind, let_kind, label_kind, terms_of_words, groups_of_words, op_of_code, bare_of, Rows};
ghost use Rattle.additions.specs.Additions.{no_word, row_word, added, rows_after, references_pushed, push_answer, Pushed, Patterns, AddsTerm};

use model::Refusal;

// The slices and counts stay loose parameters: a struct of lent slices costs a clause for each slice that a function leaves as
// it was.

// The op word of a row that is no `op`.
const NO_WORD: usize = 4;

// Pushes a reference to a term, in a group of its quantifier; the references so far are `used`. Full references stay.
pub fn push(refs: &mut [u32], used: usize, term: usize, group: usize) -> Result<(), Refusal>
    requires { (working_words ≤ length refs.old) × (term < most_terms) × (group < 65536) }
    ensures answer { result ≡ push_answer used }
    ensures refs { refs.new ≡ references_pushed refs.old used (term + 4096 * group) }
{
    if model::MOST_REFERENCES <= used {
        return Err(Refusal::FullTerms);
    }
    refs[used] = (term + terms::GROUP * group) as u32;
    Ok(())
}

// Adds a row: kind, op word and head name, where its references start, and its groups or the term under a run of labels.
fn add_row(
    rows: &mut [u32],
    many: usize,
    kind: usize,
    op: usize,
    head: usize,
    start: usize,
    extra: usize,
) -> Result<(), Refusal>
    requires { (working_words ≤ length rows.old) × (kind < 8) × (op < 8) × (head < most_names) × (start ≤ most_references)
        × (extra < 65536) }
    ensures answer { result ≡ added many }
    ensures rows { rows.new ≡ rows_after rows.old many (row_word kind op head) start extra }
{
    if model::MOST_TERMS <= many {
        return Err(Refusal::FullTerms);
    }
    rows[many] = (kind + 8 * (op + 8 * head)) as u32;
    rows[terms::START + many] = start as u32;
    rows[terms::EXTRA + many] = extra as u32;
    Ok(())
}

// Adds a `free`: its name has a number.
pub fn add_free(
    refs: &[u32],
    rows: &mut [u32],
    used: usize,
    many: usize,
    named: usize,
    head: usize,
) -> Result<(), Refusal>
    requires { Rows refs.now rows.old used many named × (head < named) }
    ensures { AddsTerm refs.now rows.old rows.new used used many named
        (row_word free_kind no_word head) 0 (λ name. free_v (name head)) result }
{
    add_row(rows, many, terms::FREE, NO_WORD, head, used, 0)
}

// Adds a `leaf`.
pub fn add_leaf(
    refs: &[u32],
    rows: &mut [u32],
    used: usize,
    many: usize,
    named: usize,
) -> Result<(), Refusal>
    requires { Rows refs.now rows.old used many named }
    ensures { AddsTerm refs.now rows.old rows.new used used many named
        (row_word leaf_kind no_word 0) 0 (λ name. leaf) result }
{
    add_row(rows, many, terms::LEAF, NO_WORD, 0, used, 0)
}

// Adds a `call` of a name, with the references from `start` up to `used`.
pub fn add_call(
    refs: &[u32],
    rows: &mut [u32],
    start: usize,
    used: usize,
    many: usize,
    named: usize,
    head: usize,
) -> Result<(), Refusal>
    requires { Pushed refs.now rows.old start used many named × (head < named) }
    ensures { AddsTerm refs.now rows.old rows.new start used many named
        (row_word call_kind no_word head) 0 (λ name. call (name head) (terms_of_words (part refs.now start used)))
        result }
{
    add_row(rows, many, terms::CALL, NO_WORD, head, start, 0)
}

// Adds an `op` of an op word.
pub fn add_op(
    refs: &[u32],
    rows: &mut [u32],
    start: usize,
    used: usize,
    many: usize,
    named: usize,
    op: usize,
) -> Result<(), Refusal>
    requires { Pushed refs.now rows.old start used many named × (op < 5) }
    ensures { AddsTerm refs.now rows.old rows.new start used many named
        (row_word op_kind op 0) 0 (λ name. app (op_of_code op) (terms_of_words (part refs.now start used))) result }
{
    add_row(rows, many, terms::OP, op, 0, start, 0)
}

// Adds an `all` with so many groups: its body, then the terms of the groups.
pub fn add_all(
    refs: &[u32],
    rows: &mut [u32],
    start: usize,
    used: usize,
    many: usize,
    named: usize,
    groups: usize,
) -> Result<(), Refusal>
    requires { Pushed refs.now rows.old start used many named × Patterns refs.now start used groups
        × (groups < 65536) }
    ensures { AddsTerm refs.now rows.old rows.new start used many named
        (row_word all_kind no_word 0) groups (λ name. forall (term_of (get_or refs.now start 0))
        (groups_of_words (part refs.now (start + 1) used) groups)) result }
{
    add_row(rows, many, terms::ALL, NO_WORD, 0, start, groups)
}

// Adds a `some` with so many groups. One function for this and `add_all` is no plainer: a `bool` would choose the kind and the
// node.
pub fn add_some(
    refs: &[u32],
    rows: &mut [u32],
    start: usize,
    used: usize,
    many: usize,
    named: usize,
    groups: usize,
) -> Result<(), Refusal>
    requires { Pushed refs.now rows.old start used many named × Patterns refs.now start used groups
        × (groups < 65536) }
    ensures { AddsTerm refs.now rows.old rows.new start used many named
        (row_word some_kind no_word 0) groups (λ name. exists (term_of (get_or refs.now start 0))
        (groups_of_words (part refs.now (start + 1) used) groups)) result }
{
    add_row(rows, many, terms::SOME, NO_WORD, 0, start, groups)
}

// Adds a `let`: its body, then the terms that it binds.
pub fn add_let(
    refs: &[u32],
    rows: &mut [u32],
    start: usize,
    used: usize,
    many: usize,
    named: usize,
) -> Result<(), Refusal>
    requires { Pushed refs.now rows.old start used many named × (start < used) }
    ensures { AddsTerm refs.now rows.old rows.new start used many named
        (row_word let_kind no_word 0) 0 (λ name. let_in (term_of (get_or refs.now start 0))
        (terms_of_words (part refs.now (start + 1) used))) result }
{
    add_row(rows, many, terms::LET, NO_WORD, 0, start, 0)
}

// Adds a `label` of a term; the row has the term under the run of labels.
pub fn add_label(
    refs: &[u32],
    rows: &mut [u32],
    start: usize,
    many: usize,
    named: usize,
) -> Result<(), Refusal>
    requires { Pushed refs.now rows.old start (start + 1) many named }
    ensures { AddsTerm refs.now rows.old rows.new start (start + 1) many named
        (row_word label_kind no_word 0) (bare_of rows.old (term_of (get_or refs.now start 0)))
        (λ name. labeled (term_of (get_or refs.now start 0))) result }
{
    let under = terms::bare(rows, terms::reference(refs, start));
    add_row(rows, many, terms::LABEL, NO_WORD, 0, start, under)
}
