#![tactic(auto)]

ghost use Rattle.std.specs.Prelude.{◌≤◌, ◌<◌, ◌≡◌, Bool, length};
ghost use Rattle.model.specs.Lists.{part};
ghost use Rattle.model.specs.Lines.{fields};
ghost use Rattle.model.specs.Reading.{content, parse};
ghost use Rattle.model.specs.Outcome.{working_words};
ghost use Rattle.model.specs.declared.LineKind.TheVariants as kind;
ghost use Rattle.text.specs.Parts.{Placed, fields_left};
ghost use Rattle.fields.specs.Wording.{ask_line_kind};
ghost use Rattle.records.specs.Columns.{ask_room};
ghost use Rattle.records.specs.States.{state_of};
ghost use Rattle.records.specs.Adding.{Standing};
ghost use Rattle.filing.specs.Lines.{LineRead};
ghost use Rattle.reader.specs.Lines.{kind_content, Asks, TablesCleared, FileRead};

use fields::Kind;
use model::{Counts, Refusal, Refused};
use text::Cursor;

// Reads an ask line, with groups or without, from its query on. Without them it admits all groups.
fn read_ask(
    file: &[u8],
    recs: &mut [u32],
    k: Counts,
    grouped: bool,
    c: Cursor,
) -> Result<Counts, Refusal>
    requires { Placed file.now c × (k.asks < ask_room) × (working_words ≤ length recs.old) }
    ensures { Asks recs.old recs.new k
        (content (ask_line_kind grouped) k.grouped k.terms (fields_left file.now c)) result }
{
    let (q, next) = c.number(file, model::MOST_QUERY)?;
    let (options, after) = next.number(file, model::MOST_OPTIONS)?;
    let (groups, last) = fields::number_or(
        file,
        grouped,
        model::MOST_GROUPS,
        model::MOST_GROUPS,
        after,
    )?;
    if last.at <= last.end {
        return Err(Refusal::Form);
    }
    let mut added = records::add_ask(recs, k, records::ASK, q, options, groups);
    if grouped {
        added.grouped = true;
    }
    Ok(added)
}

// Reads an `also`, from its query on.
fn read_also(file: &[u8], recs: &mut [u32], k: Counts, c: Cursor) -> Result<Counts, Refusal>
    requires { Placed file.now c × (0 < k.asks) × (k.asks < ask_room) × (working_words ≤ length recs.old) }
    ensures { Asks recs.old recs.new k
        (content kind.Also k.grouped k.terms (fields_left file.now c)) result }
{
    let (q, last) = c.number(file, model::MOST_QUERY)?;
    if last.at <= last.end {
        return Err(Refusal::Form);
    }
    Ok(records::add_ask(recs, k, records::ALSO, q, 0, 0))
}

// Reads a line of a kind, from the field after the kind on. The lent slices stay apart, as C lends them.
fn read_kind(
    file: &[u8],
    names: &mut [u32],
    refs: &mut [u32],
    rows: &mut [u32],
    recs: &mut [u32],
    lists: &mut [u32],
    k: Counts,
    n: usize,
    kind: Kind,
    c: Cursor,
) -> Result<Counts, Refusal>
    requires { Standing file.now names.old refs.old rows.old recs.old lists.old k × Placed file.now c
        × (n < 4294967296) × ((grouped : Bool) → kind ≡ Kind.Ask grouped → k.asks < ask_room)
        × (kind ≡ Kind.Also → (0 < k.asks) × (k.asks < ask_room)) }
    ensures { LineRead file.now names.old refs.old rows.old
        recs.old lists.old names.new refs.new rows.new recs.new
        lists.new k n (kind_content kind k.grouped k.terms (fields_left file.now c)) result }
{
    match kind {
        Kind::Ask(grouped) => read_ask(file, recs, k, grouped, c),
        Kind::Also => read_also(file, recs, k, c),
        Kind::Hide => filing::read_hide(file, names, refs, rows, recs, lists, k, n, c),
        Kind::Term(t) => nodes::read_term(file, names, refs, rows, k, t, c),
        Kind::Record(r) => filing::read_record(file, names, refs, rows, recs, lists, k, n, r, c),
    }
}

// Reads the n-th line, from `a` up to `e`, where its 0A stands.
fn read_line(
    file: &[u8],
    names: &mut [u32],
    refs: &mut [u32],
    rows: &mut [u32],
    recs: &mut [u32],
    lists: &mut [u32],
    k: Counts,
    n: usize,
    a: usize,
    e: usize,
) -> Result<Counts, Refusal>
    requires { Standing file.now names.old refs.old rows.old recs.old lists.old k × (a ≤ e)
        × (e ≤ length file.now) × (n < 4294967296) }
    ensures { LineRead file.now names.old refs.old rows.old
        recs.old lists.old names.new refs.new rows.new recs.new
        lists.new k n
        (parse (state_of file.now names.old refs.old rows.old recs.old
        lists.old k) (fields (part file.now a e))) result }
{
    let c = Cursor { at: a, end: e };
    let first = c.field(file)?;
    let kind = fields::line_kind(file, k, first.start, first.end)?;
    if !fields::counted(file, k, Ok(kind), a, e) {
        return Err(Refusal::Form);
    }
    read_kind(file, names, refs, rows, recs, lists, k, n, kind, first.next)
}

// Reads a file, line after line, and fills the macro column: the counts after the last line, or a refusal and its line.
pub fn read_file(
    file: &[u8],
    names: &mut [u32],
    refs: &mut [u32],
    rows: &mut [u32],
    recs: &mut [u32],
    lists: &mut [u32],
) -> Result<Counts, Refused>
    requires { TablesCleared file.now names.old refs.old rows.old recs.old lists.old }
    ensures { FileRead file.now names.old refs.old rows.old
        recs.old lists.old names.new refs.new rows.new recs.new
        lists.new result }
{
    if file.len() == 0 {
        return Err(Refused {
            refusal: Refusal::Form,
            place: 1,
        });
    }
    let mut k = Counts {
        asks: 0,
        grouped: false,
        hides: 0,
        names: 0,
        references: 0,
        terms: 0,
        records: 0,
        entries: 0,
        uses: 0,
        mark: 1,
    };
    let mut n: usize = 1;
    let mut from: usize = 0;
    // A line ends where its 0A stands: the step is not by one, and the file is a part of the caller's, which is read in place.
    while from < file.len() {
        let end = text::find(file, b'\n', from, file.len());
        if end == file.len() {
            return Err(Refused {
                refusal: Refusal::Form,
                place: n as u32,
            });
        }
        match read_line(file, names, refs, rows, recs, lists, k, n, from, end) {
            Ok(next) => {
                // Field by field: as a whole the counts are copied with their padding, which takes 33 instructions more a line.
                k = Counts { ..next };
            }
            Err(refusal) => {
                return Err(Refused {
                    refusal,
                    place: n as u32,
                });
            }
        }
        n += 1;
        from = end + 1;
    }
    macros::open_macros(names, recs, k.names);
    Ok(k)
}
