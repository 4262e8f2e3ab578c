#![tactic(auto)]

ghost use Rattle.std.specs.Prelude.{ℕ, ◌-◌, ◌≤◌, ◌<◌, ◌≡◌, List, length, get_or};
ghost use Rattle.model.specs.Lists.{part};
ghost use Rattle.model.specs.Names.{Name};
ghost use Rattle.model.specs.Outcome.{working_words};
ghost use Rattle.model.specs.Summaries.{free_top_level_names, group_names};
ghost use Rattle.terms.specs.Rows.{term_of, terms_of_words, terms_of, Rows};
ghost use Rattle.gather.specs.Sets.{row_mark, Fresh, Named, Gathers, Gathered};
ghost use Rattle.gather.specs.Visits.{visit_term, visit_list, WalksAs};
ghost use Rattle.gather.specs.Walks.{Own, Free, Among, Heads, WalkReady, References, Steps, Walks, head_part, term_part, list_part, Follows};

// The columns of marks, by their first word: by name, and by row.
pub const NAME_MARK: usize = 8192;

pub const ROW_MARK: usize = 12288;

// The slices that are written stay parameters here: as fields of one struct each that a function leaves alone wants a clause of
// its own.

// Adds the head name of a term, unless it has none, the name is excluded, or it is there already. As in every function here,
// the answer is where the names end in the slice, or none where there is no room for them.
fn gather_head(
    names: &mut [u32],
    rows: &[u32],
    lists: &mut [u32],
    t: usize,
    mark: u32,
    count: usize,
    room: usize,
) -> Option<usize>
    requires { Heads names.old rows.now lists.old t count room }
    ensures set { Steps (Own names.old rows.now t) names.old lists.old
        names.new lists.new mark count room result }
    ensures walk { Follows (head_part t) names.old rows.now lists.old names.new
        rows.now lists.new mark count room result }
{
    if !terms::has_head(rows, t) {
        return Some(count);
    }
    let n = terms::head(rows, t);
    if names::is_excluded(names, n) {
        return Some(count);
    }
    if words::at(names, NAME_MARK + n) == mark as usize {
        return Some(count);
    }
    if room <= count {
        return None;
    }
    lists[count] = n as u32;
    names[NAME_MARK + n] = mark;
    Some(count + 1)
}

// Adds the free names of a term that has no mark: its head's, then those of the terms that it names. The term is marked
// after these.
#[cycle(walk_list_walk_term)]
fn walk_term(
    names: &mut [u32],
    refs: &[u32],
    rows: &mut [u32],
    lists: &mut [u32],
    used: usize,
    many: usize,
    t: usize,
    mark: u32,
    count: usize,
    room: usize,
) -> Option<usize>
    requires { WalkReady names.old refs.now rows.old lists.old used many mark count room × (t < many)
        × (row_mark rows.old t ≡ mark → ⊥) }
    ensures set { Walks (Free names.old refs.now rows.old used many t)
        names.old refs.now rows.old lists.old names.new rows.new
        lists.new used many mark count room result }
    ensures walk { Follows (term_part refs.now used many t) names.old rows.old
        lists.old names.new rows.new lists.new mark count room result }
{
    let own = gather_head(names, rows, lists, t, mark, count, room)?;
    let a = terms::start(rows, t);
    let e = terms::end(rows, used, many, t);
    let n = walk_list(names, refs, rows, lists, used, many, a, e, mark, own, room)?;
    rows[ROW_MARK + t] = mark;
    Some(n)
}

// Adds the free names of the terms that the references from `a` up to `e` name. A term with the mark is not walked again.
#[cycle(walk_list_walk_term)]
fn walk_list(
    names: &mut [u32],
    refs: &[u32],
    rows: &mut [u32],
    lists: &mut [u32],
    used: usize,
    many: usize,
    a: usize,
    e: usize,
    mark: u32,
    count: usize,
    room: usize,
) -> Option<usize>
    requires { WalkReady names.old refs.now rows.old lists.old used many mark count room
        × References refs.now used many a e }
    ensures set { Walks (Among names.old refs.now rows.old used many a e)
        names.old refs.now rows.old lists.old names.new rows.new
        lists.new used many mark count room result }
    ensures walk { Follows (list_part refs.now used many a e) names.old rows.old
        lists.old names.new rows.new lists.new mark count room result }
{
    let mut n = count;
    for i in a..e {
        let t = terms::reference(refs, i);
        if words::at(rows, ROW_MARK + t) == mark as usize {
            continue;
        }
        n = walk_term(names, refs, rows, lists, used, many, t, mark, n, room)?;
    }
    Some(n)
}

// Gathers the free names of a term into `lists` from `from` on, up to `room`, under a mark that no row and no name has yet: the
// walk, with what it comes to in sets of names.
pub fn gather_term(
    names: &mut [u32],
    refs: &[u32],
    rows: &mut [u32],
    lists: &mut [u32],
    named: usize,
    used: usize,
    many: usize,
    t: usize,
    mark: u32,
    from: usize,
    room: usize,
) -> Option<usize>
    requires { Rows refs.now rows.old used many named × (working_words ≤ length names.old) × (t < many)
        × Fresh names.old rows.old mark × (from ≤ room) × (room ≤ length lists.old) }
    ensures set { (exclude : List Name) (name : ℕ → Name) → Named exclude name names.old named
        → Gathers name named (free_top_level_names exclude (terms_of name refs.now rows.old used many) t)
        from room lists.new result }
    ensures slices { Gathered names.old rows.old lists.old names.new
        rows.new lists.new mark from room result }
    ensures walk { WalksAs (visit_term names.old refs.now rows.old used many
        (room - from) t) names.old rows.old lists.old names.new rows.new
        lists.new mark from result }
{
    walk_term(names, refs, rows, lists, used, many, t, mark, from, room)
}

// Gathers the free names of the terms that the references from `a` up to `e` name.
pub fn gather_list(
    names: &mut [u32],
    refs: &[u32],
    rows: &mut [u32],
    lists: &mut [u32],
    named: usize,
    used: usize,
    many: usize,
    a: usize,
    e: usize,
    mark: u32,
    from: usize,
    room: usize,
) -> Option<usize>
    requires { Rows refs.now rows.old used many named × (working_words ≤ length names.old) × (a ≤ e) × (e ≤ used)
        × ((i : ℕ) → a ≤ i → i < e → term_of (get_or refs.now i 0) < many) × Fresh names.old rows.old mark × (from ≤ room)
        × (room ≤ length lists.old) }
    ensures set { (exclude : List Name) (name : ℕ → Name) → Named exclude name names.old named
        → Gathers name named (group_names exclude (terms_of name refs.now rows.old used many)
        (terms_of_words (part refs.now a e))) from room lists.new result }
    ensures slices { Gathered names.old rows.old lists.old names.new
        rows.new lists.new mark from room result }
    ensures walk { WalksAs (visit_list names.old refs.now rows.old used many
        (room - from) (terms_of_words (part refs.now a e))) names.old rows.old
        lists.old names.new rows.new lists.new mark from result }
{
    walk_list(names, refs, rows, lists, used, many, a, e, mark, from, room)
}
