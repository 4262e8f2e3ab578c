#![tactic(auto)]

ghost use Rattle.std.specs.Prelude.{◌+◌, ◌≤◌, ◌<◌, ◌≡◌, length, get_or};
ghost use Rattle.model.specs.Lists.{part};
ghost use Rattle.model.specs.Reading.{most_terms};
ghost use Rattle.model.specs.Outcome.{working_words};
ghost use Rattle.terms.specs.Rows.{term_of, group_of, has_head, row_kind, row_op, row_head, row_start, row_extra, row_end, bare_of, groups_at, group_run};

// The columns of the term table, by their first word: kind with op word and head name (from word 0), where the references
// start, groups or the term under a run of labels.
pub const START: usize = 4096;

pub const EXTRA: usize = 8192;

// The kinds of rows: numbers and no enum, since a row has its kind as the low three bits of a stored word, by which `kind` of
// specs/Rows says what it is; an enum would be read out of each word by a `match` and put back by an `as`.
pub const FREE: usize = 0;

pub const LEAF: usize = 1;

pub const CALL: usize = 2;

pub const OP: usize = 3;

pub const ALL: usize = 4;

pub const SOME: usize = 5;

pub const LET: usize = 6;

pub const LABEL: usize = 7;

// The groups of a reference are counted by this.
pub const GROUP: usize = 4096;

// The kind of a row.
pub fn kind(rows: &[u32], t: usize) -> usize
    requires { (working_words ≤ length rows.now) × (t < most_terms) }
    ensures { result ≡ row_kind rows.now t }
{
    words::at(rows, t) % 8
}

// The op word of a row: true 0, iff 1, eq 2, and 3, other 4.
pub fn op(rows: &[u32], t: usize) -> usize
    requires { (working_words ≤ length rows.now) × (t < most_terms) }
    ensures { result ≡ row_op rows.now t }
{
    words::at(rows, t) / 8 % 8
}

// The head name of a row.
pub fn head(rows: &[u32], t: usize) -> usize
    requires { (working_words ≤ length rows.now) × (t < most_terms) }
    ensures { result ≡ row_head rows.now t }
{
    words::at(rows, t) / 64
}

// Whether a row is a `free` or a call, and so has a head name.
pub fn has_head(rows: &[u32], t: usize) -> bool
    requires { (working_words ≤ length rows.now) × (t < most_terms) }
    ensures { result ≡ has_head (row_kind rows.now t) }
{
    let k = kind(rows, t);
    k == FREE || k == CALL
}

// Where the references of a row start.
pub fn start(rows: &[u32], t: usize) -> usize
    requires { (working_words ≤ length rows.now) × (t < most_terms) }
    ensures { result ≡ row_start rows.now t }
{
    words::at(rows, START + t)
}

// Where they end, in a table of `many` rows and `used` references.
pub fn end(rows: &[u32], used: usize, many: usize, t: usize) -> usize
    requires { (working_words ≤ length rows.now) × (t < many) × (many ≤ most_terms) }
    ensures { result ≡ row_end rows.now used many t }
{
    if t + 1 < many {
        return words::at(rows, START + (t + 1));
    }
    used
}

// The groups of a quantifier, or the term under a run of labels.
fn extra(rows: &[u32], t: usize) -> usize
    requires { (working_words ≤ length rows.now) × (t < most_terms) }
    ensures { result ≡ row_extra rows.now t }
{
    words::at(rows, EXTRA + t)
}

// The term under a run of labels, or the term itself.
pub fn bare(rows: &[u32], t: usize) -> usize
    requires { (working_words ≤ length rows.now) × (t < most_terms) }
    ensures { result ≡ bare_of rows.now t }
{
    if words::at(rows, t) % 8 == LABEL {
        return words::at(rows, EXTRA + t);
    }
    t
}

// How many pattern groups the `all` under a term's labels has: none where it is no `all`.
pub fn group_count(rows: &[u32], t: usize) -> usize
    requires { (working_words ≤ length rows.now) × (t < most_terms) × (bare_of rows.now t < most_terms) }
    ensures { result ≡ groups_at rows.now t }
{
    let u = bare(rows, t);
    if kind(rows, u) != ALL {
        return 0;
    }
    extra(rows, u)
}

// The term of a reference.
pub fn reference(refs: &[u32], i: usize) -> usize
    requires { i < length refs.now }
    ensures { result ≡ term_of (get_or refs.now i 0) }
{
    words::at(refs, i) % GROUP
}

// The group of a reference.
fn group(refs: &[u32], i: usize) -> usize
    requires { i < length refs.now }
    ensures { result ≡ group_of (get_or refs.now i 0) }
{
    words::at(refs, i) / GROUP
}

// The first place from `a` up to `e` whose reference is not of the group, or `e`.
pub fn group_end(refs: &[u32], a: usize, e: usize, g: usize) -> usize
    requires { (a ≤ e) × (e ≤ length refs.now) }
    ensures { result ≡ a + group_run g (part refs.now a e) }
{
    for i in a..e {
        if group(refs, i) != g {
            return i;
        }
    }
    e
}
