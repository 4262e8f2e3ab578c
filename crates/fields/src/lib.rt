#![tactic(auto)]

ghost use Rattle.std.specs.Prelude.{◌≤◌, ◌≡◌, length};
ghost use Rattle.model.specs.Lists.{part};
ghost use Rattle.model.specs.Lines.{fields};
ghost use Rattle.model.specs.Reading.{need, word, op_words, kinds, State, an_ask, in_head, in_asks, may_stand, kind_field};
ghost use Rattle.model.specs.declared.Refusal.TheVariants as refusal;
ghost use Rattle.text.specs.Parts.{Placed, fields_left};
ghost use Rattle.names.specs.Table.{Table};
ghost use Rattle.fields.specs.Wording.{Keyed, look, kind_result, stands, over, Placing, fixed_of, well_counted, ReadsOp, number_or};
ghost use Rattle.fields.specs.Pushing.{most_number, push_one, push_many, push_rest, push_groups, Pushable, Pushes};
ghost use Rattle.fields.specs.Spelling.{Begun, Spells, ReadsName, SpellsRest};

use model::{Counts, Op, Refusal};
use names::Spelled;
use text::Cursor;

// The kinds of term lines.
#[derive(Clone, Copy)]
pub enum TermKind {
    Free,
    Leaf,
    Call,
    Op,
    All,
    Some,
    Let,
    Label,
}

// The kinds of record lines but `hide`, which is a kind of its own.
#[derive(Clone, Copy)]
pub enum RecordKind {
    Assume,
    Fun,
    Def,
    Retain,
    Root,
}

// The kind of a line, of an ask whether it has groups.
#[derive(Clone, Copy)]
pub enum Kind {
    Ask(bool),
    Also,
    Hide,
    Term(TermKind),
    Record(RecordKind),
}

// The keys of the kinds and of the op words: a 1, then the bytes of the word. One comparison of numbers tells a word from the
// others, where a match on slices compares them byte by byte, one word after the other.
const ASK: u64 = 0x1_61_73_6b;

const ASK2: u64 = 0x1_61_73_6b_32;

const ALSO: u64 = 0x1_61_6c_73_6f;

const HIDE: u64 = 0x1_68_69_64_65;

const FREE: u64 = 0x1_66_72_65_65;

const LEAF: u64 = 0x1_6c_65_61_66;

const CALL: u64 = 0x1_63_61_6c_6c;

const OP: u64 = 0x1_6f_70;

const ALL: u64 = 0x1_61_6c_6c;

const SOME: u64 = 0x1_73_6f_6d_65;

const LET: u64 = 0x1_6c_65_74;

const LABEL: u64 = 0x1_6c_61_62_65_6c;

const ASSUME: u64 = 0x1_61_73_73_75_6d_65;

const FUN: u64 = 0x1_66_75_6e;

const DEF: u64 = 0x1_64_65_66;

const RETAIN: u64 = 0x1_72_65_74_61_69_6e;

const ROOT: u64 = 0x1_72_6f_6f_74;

const TRUE: u64 = 0x1_74_72_75_65;

const IFF: u64 = 0x1_69_66_66;

const EQ: u64 = 0x1_65_71;

const AND: u64 = 0x1_61_6e_64;

const OTHER: u64 = 0x1_6f_74_68_65_72;

// The most bytes that a word has.
const LONGEST_WORD: usize = 6;

// The key of the part from `a` up to `e`: a 1, then its bytes; 0, which is the key of no word, where it is longer than any.
fn word_key(file: &[u8], a: usize, e: usize) -> u64
    requires { (a ≤ e) × (e ≤ length file.now) }
    ensures { Keyed (part file.now a e) result }
{
    if LONGEST_WORD < e - a {
        return 0;
    }
    let mut key: u64 = 1;
    for i in a..e {
        key = key * 256 + file[i] as u64;
    }
    key
}

// The kind whose word has a key.
#[tactic(auto, unfolding(crate::specs::Wording::kind_result, crate::specs::Wording::known_kind, crate::specs::Wording::ask_line_kind, crate::specs::Wording::term_kind, crate::specs::Wording::record_line_kind, crate::specs::Wording::look, crate::specs::Wording::key_of, crate::specs::Wording::key_from, model::specs::Reading::need, model::specs::Reading::kinds, model::specs::Names::bytes))]
fn kind_of(key: u64) -> Result<Kind, Refusal>
    ensures { kind_result result ≡ need refusal.Form (look kinds key) }
{
    match key {
        ASK => Ok(Kind::Ask(false)),
        ASK2 => Ok(Kind::Ask(true)),
        ALSO => Ok(Kind::Also),
        HIDE => Ok(Kind::Hide),
        FREE => Ok(Kind::Term(TermKind::Free)),
        LEAF => Ok(Kind::Term(TermKind::Leaf)),
        CALL => Ok(Kind::Term(TermKind::Call)),
        OP => Ok(Kind::Term(TermKind::Op)),
        ALL => Ok(Kind::Term(TermKind::All)),
        SOME => Ok(Kind::Term(TermKind::Some)),
        LET => Ok(Kind::Term(TermKind::Let)),
        LABEL => Ok(Kind::Term(TermKind::Label)),
        ASSUME => Ok(Kind::Record(RecordKind::Assume)),
        FUN => Ok(Kind::Record(RecordKind::Fun)),
        DEF => Ok(Kind::Record(RecordKind::Def)),
        RETAIN => Ok(Kind::Record(RecordKind::Retain)),
        ROOT => Ok(Kind::Record(RecordKind::Root)),
        _ => Err(Refusal::Form),
    }
}

// Whether the lines counted are ask, also and hide lines alone.
#[tactic(auto, using(crate::proofs::Words::head_past, crate::proofs::Words::head_there))]
fn in_head(k: Counts) -> bool
    ensures { (s : State) → Placing s k → result ≡ in_head s }
{
    k.terms == 0 && k.records == k.hides
}

// Whether the lines counted are ask and also lines alone.
#[tactic(auto, using(crate::proofs::Words::asks_past, crate::proofs::Words::asks_there))]
fn in_asks(k: Counts) -> bool
    ensures { (s : State) → Placing s k → result ≡ in_asks s }
{
    in_head(k) && k.hides == 0
}

// Whether an ask line, with groups or without, may stand after the lines counted: those are asks of its form and also lines.
#[tactic(auto, using(crate::proofs::Words::ask_first, crate::proofs::Words::ask_alike, crate::proofs::Words::ask_not))]
fn ask_stands(k: Counts, grouped: bool) -> bool
    ensures { (s : State) → Placing s k → result ≡ may_stand s (an_ask grouped) }
{
    in_asks(k) && (k.asks == 0 || grouped == k.grouped)
}

// Whether a line of a kind may stand after the lines counted: an ask first, then asks of its form and also lines; then hide
// lines; then any other.
fn may_stand(k: Counts, kind: Kind) -> bool
    ensures { (s : State) → Placing s k → result ≡ stands s kind }
{
    match kind {
        Kind::Ask(grouped) => ask_stands(k, grouped),
        Kind::Also => in_asks(k) && k.asks != 0,
        Kind::Hide => in_head(k) && k.asks != 0,
        Kind::Term(_) | Kind::Record(_) => k.asks != 0,
    }
}

// Whether a line of a kind is an ask or also line and as many as may be are counted.
#[tactic(auto, using(crate::proofs::Words::over_position, crate::proofs::Words::over_other))]
fn too_many(k: Counts, kind: Kind) -> bool
    ensures { (s : State) → Placing s k → result ≡ over s kind }
{
    match kind {
        Kind::Ask(_) | Kind::Also => model::MOST_ASKS <= k.asks,
        Kind::Hide | Kind::Term(_) | Kind::Record(_) => false,
    }
}

// The kind of the line after those counted, whose first field stands from `a` up to `e`; 1 where it may not stand there, then
// 13.
pub fn line_kind(file: &[u8], k: Counts, a: usize, e: usize) -> Result<Kind, Refusal>
    requires { (a ≤ e) × (e ≤ length file.now) }
    ensures { (s : State) → Placing s k → kind_result result ≡ kind_field s (part file.now a e) }
{
    let kind = kind_of(word_key(file, a, e))?;
    if !may_stand(k, kind) {
        return Err(Refusal::Form);
    }
    if too_many(k, kind) {
        return Err(Refusal::FullAsks);
    }
    Ok(kind)
}

// The op word that has a key.
#[tactic(auto, unfolding(crate::specs::Wording::look, crate::specs::Wording::key_of, crate::specs::Wording::key_from, model::specs::Reading::op_words, model::specs::Names::bytes))]
fn op_of(key: u64) -> Option<Op>
    ensures { result ≡ look op_words key }
{
    match key {
        TRUE => Some(Op::TrueOp),
        IFF => Some(Op::Iff),
        EQ => Some(Op::Eq),
        AND => Some(Op::And),
        OTHER => Some(Op::Other),
        _ => None,
    }
}

// The op word that stands from `a` up to `e`.
#[tactic(auto, using(crate::proofs::Words::op_key))]
fn op_word(file: &[u8], a: usize, e: usize) -> Option<Op>
    requires { (a ≤ e) × (e ≤ length file.now) }
    ensures { result ≡ word op_words (part file.now a e) }
{
    op_of(word_key(file, a, e))
}

// How many fields a term line of a kind has, the kind counted, where that is fixed.
#[tactic(auto, unfolding(crate::specs::Wording::fixed_of, crate::specs::Wording::known_kind, crate::specs::Wording::term_kind, model::specs::Reading::fixed_count))]
fn term_count(kind: TermKind) -> Option<usize>
    ensures { (s : State) → result ≡ fixed_of s (Kind.Term kind) }
{
    match kind {
        TermKind::Leaf => Some(1),
        TermKind::Free | TermKind::Label => Some(2),
        TermKind::Call | TermKind::Op | TermKind::All | TermKind::Some | TermKind::Let => None,
    }
}

// The same of a record line.
#[tactic(auto, using(crate::proofs::Words::assume_count), unfolding(crate::specs::Wording::fixed_of, crate::specs::Wording::known_kind, crate::specs::Wording::record_line_kind, model::specs::Reading::fixed_count))]
fn record_count(k: Counts, kind: RecordKind) -> Option<usize>
    ensures { (s : State) → Placing s k → result ≡ fixed_of s (Kind.Record kind) }
{
    match kind {
        RecordKind::Assume => Some(if k.grouped { 5 } else { 4 }),
        RecordKind::Fun => Some(2),
        RecordKind::Def => Some(3),
        RecordKind::Retain => None,
        RecordKind::Root => Some(4),
    }
}

// The same of any line.
#[tactic(auto, unfolding(crate::specs::Wording::fixed_of, crate::specs::Wording::known_kind, crate::specs::Wording::ask_line_kind, model::specs::Reading::fixed_count))]
fn fixed_count(k: Counts, kind: Kind) -> Option<usize>
    ensures { (s : State) → Placing s k → result ≡ fixed_of s kind }
{
    match kind {
        Kind::Ask(grouped) => Some(if grouped { 4 } else { 3 }),
        Kind::Also | Kind::Hide => Some(2),
        Kind::Term(t) => term_count(t),
        Kind::Record(r) => record_count(k, r),
    }
}

// Whether the line from `a` up to `e` has as many fields as its kind asks for; where that is not fixed, or the line has no kind,
// they are not counted.
pub fn counted(file: &[u8], k: Counts, kind: Result<Kind, Refusal>, a: usize, e: usize) -> bool
    requires { (a ≤ e) × (e ≤ length file.now) × (length file.now ≤ 65535) }
    ensures { (s : State) → Placing s k → result ≡ well_counted s kind (fields (part file.now a e)) }
{
    match kind {
        Ok(known) => match fixed_count(k, known) {
            Some(fixed) => text::count_fields(file, a, e) == fixed,
            None => true,
        },
        Err(_) => true,
    }
}

// The count of names once a name has no room; a number and no Option, since limit 6 is judged on the count in `Counts`, after
// 5.
const PAST_NAMES: usize = 2049;

// Pushes the term that the next field is, in a group. Past their limit references are counted and not written. The slices that
// C lends stay parameters of their own: held in one struct, each function would have a clause for each that it leaves.
pub fn push_term(
    file: &[u8],
    refs: &mut [u32],
    used: usize,
    many: usize,
    group: usize,
    c: Cursor,
) -> Result<(usize, Cursor), Refusal>
    requires { Pushable file.now refs.old used many c × (group ≤ most_number) }
    ensures { Pushes file.now refs.old refs.new
        (push_one many group refs.old used (fields_left file.now c)) used c result }
{
    let (t, next) = c.term(file, many as u32)?;
    let _ = additions::push(refs, used, t as usize, group);
    Ok((used + 1, next))
}

// Pushes the terms that the fields left are.
pub fn push_rest(
    file: &[u8],
    refs: &mut [u32],
    from: usize,
    many: usize,
    at: Cursor,
) -> Result<(usize, Cursor), Refusal>
    requires { Pushable file.now refs.old from many at }
    ensures { Pushes file.now refs.old refs.new
        (push_rest many refs.old from (fields_left file.now at)) from at result }
{
    let mut used = from;
    let mut c = at;
    // How many fields are left is known once the last is read, so no range counts the turns.
    while c.at <= c.end {
        (used, c) = push_term(file, refs, used, many, 0, c)?;
    }
    Ok((used, c))
}

// Pushes the next `n` terms, in a group.
fn push_many(
    file: &[u8],
    refs: &mut [u32],
    from: usize,
    many: usize,
    group: usize,
    n: usize,
    at: Cursor,
) -> Result<(usize, Cursor), Refusal>
    requires { Pushable file.now refs.old from many at × (group ≤ most_number) }
    ensures { Pushes file.now refs.old refs.new
        (push_many many group n refs.old from (fields_left file.now at)) from at result }
{
    let mut used = from;
    let mut c = at;
    for _ in 0..n {
        (used, c) = push_term(file, refs, used, many, group, c)?;
    }
    Ok((used, c))
}

// Pushes the terms of the next groups, each a count and that many terms.
pub fn push_groups(
    file: &[u8],
    refs: &mut [u32],
    from: usize,
    many: usize,
    groups: usize,
    at: Cursor,
) -> Result<(usize, Cursor), Refusal>
    requires { Pushable file.now refs.old from many at × (groups ≤ most_number) }
    ensures { Pushes file.now refs.old refs.new
        (push_groups many 0 groups refs.old from (fields_left file.now at)) from at result }
{
    let mut used = from;
    let mut c = at;
    for g in 0..groups {
        let (n, next) = c.number(file, text::MOST_NUMBER)?;
        (used, c) = push_many(file, refs, used, many, g, n as usize, next)?;
    }
    Ok((used, c))
}

// A name's number, and how many names there are then: once a name had no room, past their limit, and the number says nothing.
#[derive(Clone, Copy)]
struct Spelt {
    pub number: usize,
    pub named: usize,
}

// Spells the name from `a` up to `e`, unless a name had no room before.
fn spell_name(file: &[u8], names: &mut [u32], named: usize, a: usize, e: usize) -> Spelt
    requires { Begun file.now names.old named × (a ≤ e) × (e ≤ length file.now) }
    ensures { Spells file.now names.old names.new named a e result }
{
    if model::MOST_NAMES < named {
        return Spelt { number: 0, named };
    }
    match names::spell(file, names, named, a, e) {
        Spelled::Known(n) => Spelt { number: n, named },
        Spelled::New(n) => Spelt {
            number: n,
            named: named + 1,
        },
        Spelled::Full => Spelt {
            number: 0,
            named: PAST_NAMES,
        },
    }
}

// Spells the name that the next field is.
pub fn read_name(
    file: &[u8],
    names: &mut [u32],
    named: usize,
    c: Cursor,
) -> Result<(usize, usize, Cursor), Refusal>
    requires { Begun file.now names.old named × Placed file.now c }
    ensures { ReadsName file.now names.old names.new named c result }
{
    let part = c.name(file)?;
    let w = spell_name(file, names, named, part.start, part.end);
    Ok((w.number, w.named, part.next))
}

// Spells the names that the fields left are.
pub fn spell_rest(
    file: &[u8],
    names: &mut [u32],
    from: usize,
    at: Cursor,
) -> Result<(usize, Cursor), Refusal>
    requires { Table file.now names.old from × Placed file.now at }
    ensures { SpellsRest file.now names.old names.new from
        (fields_left file.now at) result }
{
    let mut named = from;
    let mut c = at;
    // How many fields are left is known once the last is read, so no range counts the turns.
    while c.at <= c.end {
        let (_, more, next) = read_name(file, names, named, c)?;
        named = more;
        c = next;
    }
    Ok((named, c))
}

// The op word that the next field is.
pub fn read_op_word(file: &[u8], c: Cursor) -> Result<(Op, Cursor), Refusal>
    requires { Placed file.now c }
    ensures { ReadsOp file.now c result }
{
    let part = c.field(file)?;
    let op = op_word(file, part.start, part.end).ok_or(Refusal::Form)?;
    Ok((op, part.next))
}

// The number that the next field is where the form of the file has the field, else a number that stands for it.
#[tactic(auto, unfolding(crate::specs::Wording::number_or))]
pub fn number_or(
    file: &[u8],
    stands: bool,
    limit: u32,
    other: u32,
    c: Cursor,
) -> Result<(u32, Cursor), Refusal>
    requires { Placed file.now c }
    ensures { result ≡ number_or stands limit other file.now c }
{
    if stands {
        return c.number(file, limit);
    }
    Ok((other, c))
}
