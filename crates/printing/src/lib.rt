// The printed form of an answer: document 01's lines, one at a time into a lent slice, and all to a writer that is lent; the
// same of the lists of the sweep and of the rows of reasons and of the check. A refusal in words.
#![tactic(auto)]

ghost use Rattle.std.specs.Prelude.{ℕ, ◌+◌, ◌*◌, ◌≤◌, ◌<◌, ◌≡◌, List, [], length, get_or, map, OnOk};
ghost use Rattle.std.specs.Io.KnownBytes.{Appends};
ghost use Rattle.std.specs.List.{concat};
ghost use Rattle.model.specs.Lists.{part, sum};
ghost use Rattle.model.specs.Lines.{fields};
ghost use Rattle.model.specs.Outcome.{Position, Outcome, lists};
ghost use Rattle.model.specs.Text.{show, second, name_on, kept_line, sum_line, refused_line, printed, pass_line, pass_lists, printed_sweep};
ghost use Rattle.model.specs.Text.{comma, name_in_fields, item_on, row_numbers, row_fields, row_line, late_line, count_line};
ghost use Rattle.names.specs.Table.{Table};
ghost use Rattle.rows.specs.Rows.{row};
ghost use Rattle.printing.specs.Printed.{BytesPut, TextBegins, Starts, Starts-prop, SameFrom, LiesIn, LineSpan, NumberNamed, RowTold};
ghost use Rattle.printing.specs.Printed.{reason, has_line, reason_line};
ghost use Rattle.printing.specs.Answers.{Told, SweptTold, LineTold, FoundLine};

use itoa::Buffer;
use model::{Answer, Refusal, Row, Swept, Verdict};
use std::io::{self, Write};

// A line of the printed lists: the position of its list, where the list starts in the result slice, which of its lines it is.
#[derive(Clone, Copy)]
struct Line {
    position: usize,
    start: usize,
    index: usize,
}

// A part of the file: where it starts and ends.
#[derive(Clone, Copy)]
struct Span {
    start: usize,
    end: usize,
}

// The lines of a file: where each starts, and how many there are.
#[derive(Clone, Copy)]
struct Lines<'a> {
    file: &'a [u8],
    starts: &'a [u32],
    many: usize,
    ghost stand: { Starts file.now starts.now many } by { Starts-prop file.now starts.now many },
}

// Writes bytes from a place on; where they end.
fn put(text: &mut [u8], at: usize, bytes: &[u8]) -> usize
    requires { at + length bytes.now ≤ length text.old }
    ensures { BytesPut at bytes.now text.old text.new result }
{
    let end = at + bytes.len();
    text[at..end].copy_from_slice(bytes);
    end
}

// Writes a count in decimal from a place on; where it ends.
fn put_count(text: &mut [u8], at: usize, n: usize) -> usize
    requires { at + 20 ≤ length text.old }
    ensures { BytesPut at (show n) text.old text.new result × (result ≤ at + 20) }
{
    let mut digits = Buffer::new();
    put(text, at, digits.format(n).as_bytes())
}

// Writes a number in decimal from a place on; where it ends.
fn put_number(text: &mut [u8], at: usize, n: u32) -> usize
    requires { at + 20 ≤ length text.old }
    ensures { BytesPut at (show n) text.old text.new result × (result ≤ at + 20) }
{
    put_count(text, at, n as usize)
}

// Where each line of a file starts; how many lines there are.
pub fn line_starts(file: &[u8], starts: &mut [u32]) -> usize
    requires { (length file.now ≤ length starts.old) × (length file.now < 4294967296) }
    ensures starts { Starts file.now starts.new result }
    ensures rest { SameFrom result starts.old starts.new }
{
    let mut many: usize = 0;
    let mut from: usize = 0;
    // The next line starts where `find` says: no index is counted.
    while from < file.len() {
        starts[many] = from as u32;
        many += 1;
        from = text::find(file, b'\n', from, file.len()) + 1;
    }
    many
}

// The second field of a part of the file, in its place.
fn second_field(file: &[u8], start: usize, end: usize) -> &[u8]
    requires { (start ≤ end) × (end ≤ length file.now) }
    ensures { (result.now ≡ second (fields (part file.now start end)))
        × (length result.now ≤ length file.now) × LiesIn file.entry result }
{
    let comma = text::find(file, b',', start, end);
    if comma == end {
        return &file[end..end];
    }
    let from = comma + 1;
    let upto = text::find(file, b',', from, end);
    &file[from..upto]
}

// The name in the fields of a part of the file, in its place: the third field of a root line, else the second.
fn record_name(file: &[u8], start: usize, end: usize) -> &[u8]
    requires { (start ≤ end) × (end ≤ length file.now) }
    ensures { (result.now ≡ name_in_fields (fields (part file.now start end)))
        × (length result.now ≤ length file.now) × LiesIn file.entry result }
{
    let comma = text::find(file, b',', start, end);
    if comma == end {
        return &file[end..end];
    }
    if text::same_text(file, start, comma, b"root") {
        return second_field(file, comma + 1, end);
    }
    second_field(file, start, end)
}

// Writes the last line of a list; its length.
fn sum_line(kept: u32, visits: u32, rounds: u32, text: &mut [u8]) -> usize
    requires { 128 ≤ length text.old }
    ensures { TextBegins (sum_line kept visits rounds) text.new result }
{
    let mut at = put(text, 0, b"sum,");
    at = put_number(text, at, kept);
    at = put(text, at, b",");
    at = put_number(text, at, visits);
    at = put(text, at, b",");
    at = put_number(text, at, rounds);
    put(text, at, b"\n")
}

// Writes the line of a refusal; its length.
fn refused_line(r: Refusal, place: u32, text: &mut [u8]) -> usize
    requires { 128 ≤ length text.old }
    ensures { TextBegins (refused_line r place) text.new result }
{
    let mut at = put(text, 0, b"refused,");
    at = put_number(text, at, refusals::refusal_number(r));
    at = put(text, at, b",");
    at = put_number(text, at, place);
    put(text, at, b"\n")
}

// Writes the numbers of a row; where they end.
fn put_numbers(r: Row, text: &mut [u8]) -> usize
    requires { 80 ≤ length text.old }
    ensures { BytesPut 0 (comma (row_numbers r)) text.old text.new result × (result ≤ 66) }
{
    let mut at = put(text, 0, b"row,");
    at = put_number(text, at, r.line);
    at = put(text, at, b",");
    at = put_number(text, at, r.number);
    at = put(text, at, b",");
    put_number(text, at, r.cause)
}

// Writes the line of a count behind its word; its length.
fn count_line(word: &[u8], n: usize, text: &mut [u8]) -> usize
    requires { length word.now + 32 ≤ length text.old }
    ensures { TextBegins (count_line word.now n) text.new result }
{
    let mut at = put(text, 0, word);
    at = put(text, at, b",");
    at = put_count(text, at, n);
    put(text, at, b"\n")
}

// Writes the line after a list of the sweep; its length.
fn pass_line(kept: u32, passes: u32, text: &mut [u8]) -> usize
    requires { 128 ≤ length text.old }
    ensures { TextBegins (pass_line kept passes) text.new result }
{
    let mut at = put(text, 0, b"pass,");
    at = put_number(text, at, kept);
    at = put(text, at, b",");
    at = put_number(text, at, passes);
    put(text, at, b"\n")
}

// Finds a line of the printed lists, by its place from 0, from the counts of the lists: each has a line more, its sum.
fn find_line(kept: [u32; 16], j: usize) -> Line
    requires { j < sum kept + length kept }
    ensures { FoundLine kept j result }
{
    let mut position: usize = 0;
    let mut start: usize = 0;
    let mut index = j;
    // It ends at a list that has the line: a `for` would want an answer behind the last.
    while index > kept[position] as usize {
        let count = kept[position] as usize;
        start += count;
        index -= count + 1;
        position += 1;
    }
    Line {
        position,
        start,
        index,
    }
}

// The name of a number, in its place in the file; an empty part where the table has no such number.
fn name_of<'a>(file: &'a [u8], names: &[u32], named: usize, number: u32) -> &'a [u8]
    requires { Table file.now names.now named }
    ensures { NumberNamed file.now names.now named number result.now }
{
    let n = number as usize;
    if named <= n {
        return &file[..0];
    }
    names::name_part(file, names, named, n)
}

impl<'a> Lines<'a> {
    // Where a line stands; an empty part where there is no such line.
    fn span(&self, line: u32) -> Span
        ensures { LineSpan self.now.file.now line result }
    {
        let n = line as usize;
        if n == 0 {
            return Span { start: 0, end: 0 };
        }
        if self.many < n {
            return Span { start: 0, end: 0 };
        }
        let start = self.starts[n - 1] as usize;
        let end = text::find(self.file, b'\n', start, self.file.len());
        Span { start, end }
    }

    // The name on a line, its second field, in its place in the file.
    fn name_on(&self, line: u32) -> &'a [u8]
        ensures { (result.now ≡ name_on self.now.file.now line) × (length result.now ≤ length self.now.file.now)
            × LiesIn self.now.file result }
    {
        let s = self.span(line);
        second_field(self.file, s.start, s.end)
    }

    // The name of the fact or root on a line, in its place in the file.
    fn item_on(&self, line: u32) -> &'a [u8]
        ensures { (result.now ≡ item_on self.now.file.now line) × (length result.now ≤ length self.now.file.now)
            × LiesIn self.now.file result }
    {
        let s = self.span(line);
        record_name(self.file, s.start, s.end)
    }

    // Writes the line of a kept record; its length.
    fn kept_line(&self, line: u32, text: &mut [u8]) -> usize
        requires { length self.now.file.now + 64 ≤ length text.old }
        ensures { TextBegins (kept_line self.now.file.now line) text.new result }
    {
        let name = self.name_on(line);
        let mut at = put(text, 0, b"kept,");
        at = put_number(text, at, line);
        at = put(text, at, b",");
        at = put(text, at, name);
        put(text, at, b"\n")
    }

    // Writes the fields of a row, the name of its number handed in; where they end.
    fn put_row(&self, r: Row, name: &[u8], text: &mut [u8]) -> usize
        requires { (length name.now ≤ length self.now.file.now)
            × (2 * length self.now.file.now + 80 ≤ length text.old) }
        ensures { BytesPut 0 (comma (row_fields self.now.file.now name.now r)) text.old
            text.new result × (result ≤ 2 * length self.now.file.now + 68) }
    {
        let of = self.name_on(r.line);
        let mut at = put_numbers(r, text);
        at = put(text, at, b",");
        at = put(text, at, of);
        at = put(text, at, b",");
        put(text, at, name)
    }

    // Writes the line of a row of reasons, the name of its number handed in; its length.
    fn row_line(&self, r: Row, name: &[u8], text: &mut [u8]) -> usize
        requires { (length name.now ≤ length self.now.file.now)
            × (3 * length self.now.file.now + 128 ≤ length text.old) }
        ensures { TextBegins (row_line self.now.file.now name.now r) text.new result }
    {
        let item = self.item_on(r.cause);
        let mut at = self.put_row(r, name, text);
        at = put(text, at, b",");
        at = put(text, at, item);
        put(text, at, b"\n")
    }

    // Writes the line of a row of the check, the name of its number handed in; its length.
    fn late_line(&self, r: Row, name: &[u8], text: &mut [u8]) -> usize
        requires { (length name.now ≤ length self.now.file.now)
            × (3 * length self.now.file.now + 128 ≤ length text.old) }
        ensures { TextBegins (late_line self.now.file.now name.now r) text.new result }
    {
        let at = self.put_row(r, name, text);
        put(text, at, b"\n")
    }

    // Writes a line of the printed lists, by its place from 0; its length.
    fn list_line(&self, a: Answer, out: &[u32], j: usize, text: &mut [u8]) -> usize
        requires { (length self.now.file.now + 128 ≤ length text.old)
            × (a.verdict ≡ Verdict.Accepted) × LineTold self.now.file.now a out.now j }
        ensures { (o : Outcome) → Told a out.now o → j < length (printed self.now.file.now o)
            → TextBegins (get_or (printed self.now.file.now o) j []) text.new result }
    {
        let kept = a.kept;
        let l = find_line(kept, j);
        let p = l.position;
        let count = kept[p];
        if l.index < count as usize {
            let at = l.start + l.index;
            return self.kept_line(out[at], text);
        }
        let visits = a.visits;
        let rounds = a.rounds;
        sum_line(count, visits[p], rounds[p], text)
    }

    // Writes a line of the printed form of an answer, by its place from 0; its length.
    fn answer_line(&self, a: Answer, out: &[u32], j: usize, text: &mut [u8]) -> usize
        requires { (length self.now.file.now + 128 ≤ length text.old) × LineTold self.now.file.now a out.now j }
        ensures { (o : Outcome) → Told a out.now o → j < length (printed self.now.file.now o)
            → TextBegins (get_or (printed self.now.file.now o) j []) text.new result }
    {
        let v = a.verdict;
        match v {
            Verdict::Accepted => self.list_line(a, out, j, text),
            Verdict::Refused(r) => refused_line(r, a.place, text),
        }
    }

    // Prints the lines of some kept records.
    fn print_kept<W: Write>(&self, writer: &mut W, kept: &[u32], text: &mut [u8]) -> io::Result<()>
        requires { length self.now.file.now + 128 ≤ length text.old }
        ensures same { length text.new ≡ length text.old }
        ensures appends { OnOk result (Appends (W.contents writer.old) (W.contents writer.new)
            (concat (map (kept_line self.now.file.now) kept.now))) }
    {
        for line in kept {
            let n = self.kept_line(*line, text);
            writer.write_all(&text[..n])?;
        }
        Ok(())
    }

    // Writes the line of a row that stands in two words, by its place from 0, one of reasons or of the check; its length.
    // A flag and no function says which, here and in what calls it: `RowTold` of specs/Printed speaks of both lines by it.
    fn table_line(
        &self,
        names: &[u32],
        named: usize,
        rows: &[u32],
        i: usize,
        reasons: bool,
        text: &mut [u8],
    ) -> usize
        requires { Table self.now.file.now names.now named × (2 * i + 1 < length rows.now)
            × (3 * length self.now.file.now + 128 ≤ length text.old) }
        ensures { RowTold self.now.file.now names.now named
            (row (get_or rows.now (2 * i) 0) (get_or rows.now (2 * i + 1) 0)) reasons text.new result }
    {
        let r = rows::row_at(rows, i);
        let name = name_of(self.file, names, named, r.number);
        if reasons {
            return self.row_line(r, name, text);
        }
        self.late_line(r, name, text)
    }
}

// How many lines a list is printed in: its kept lines, then their sum.
fn list_length(kept: u32) -> usize
    ensures { (result ≡ kept + 1) × (result ≤ 4294967296) }
{
    kept as usize + 1
}

// How many lines the lists of an answer are printed in. A position that was asked has a round.
fn list_count(a: Answer) -> usize
    requires { a.verdict ≡ Verdict.Accepted }
    ensures { (file out : List ℕ) (o : Outcome) → Told a out o → result ≡ length (printed file o) }
{
    let kept = a.kept;
    let rounds = a.rounds;
    let mut n: usize = 0;
    for p in 0..model::MOST_ASKS {
        if rounds[p] == 0 {
            return n;
        }
        n += list_length(kept[p]);
    }
    n
}

// How many lines the printed form of an answer has.
fn line_count(a: Answer) -> usize
    ensures { (file out : List ℕ) (o : Outcome) → Told a out o → result ≡ length (printed file o) }
{
    let v = a.verdict;
    match v {
        Verdict::Accepted => list_count(a),
        Verdict::Refused(_) => 1,
    }
}

// Prints an answer, line by line.
pub fn print<W: Write>(
    writer: &mut W,
    file: &[u8],
    a: Answer,
    out: &[u32],
    starts: &mut [u32],
    text: &mut [u8],
) -> io::Result<()>
    requires { (length file.now ≤ length starts.old) × (length file.now < 4294967296)
        × (length file.now + 128 ≤ length text.old) × ((o : Outcome) × Told a out.now o) }
    ensures { (o : Outcome) → Told a out.now o → OnOk result
        (Appends (W.contents writer.old) (W.contents writer.new) (concat (printed file.now o))) }
{
    let many = line_starts(file, starts);
    let lines = Lines { file, starts, many };
    let count = line_count(a);
    for j in 0..count {
        let n = lines.answer_line(a, out, j, text);
        writer.write_all(&text[..n])?;
    }
    Ok(())
}

// Prints the line after a list of the sweep.
fn print_pass<W: Write>(writer: &mut W, kept: u32, passes: u32) -> io::Result<()>
    ensures { OnOk result (Appends (W.contents writer.old) (W.contents writer.new) (pass_line kept passes)) }
{
    let mut text = [0u8; 128];
    let n = pass_line(kept, passes, &mut text);
    writer.write_all(&text[..n])
}

// Prints the lists of the sweep by their counts. A position that was asked has a pass.
fn print_passes<W: Write>(
    writer: &mut W,
    file: &[u8],
    a: Swept,
    out: &[u32],
    starts: &mut [u32],
    text: &mut [u8],
) -> io::Result<()>
    requires { (length file.now ≤ length starts.old) × (length file.now < 4294967296)
        × (length file.now + 128 ≤ length text.old) × (sum a.kept ≤ length out.now) }
    ensures { (ps : List Position) → SweptTold a out.now (lists ps) → OnOk result
        (Appends (W.contents writer.old) (W.contents writer.new) (concat (pass_lists file.now ps a.passes))) }
{
    let kept = a.kept;
    let passes = a.passes;
    let many = line_starts(file, starts);
    let lines = Lines { file, starts, many };
    let mut from: usize = 0;
    for p in 0..model::MOST_ASKS {
        if passes[p] == 0 {
            return Ok(());
        }
        let upto = from + kept[p] as usize;
        lines.print_kept(writer, &out[from..upto], text)?;
        print_pass(writer, kept[p], passes[p])?;
        from = upto;
    }
    Ok(())
}

// Prints what the call of the sweep comes to, line by line.
pub fn print_sweep<W: Write>(
    writer: &mut W,
    file: &[u8],
    a: Swept,
    out: &[u32],
    starts: &mut [u32],
    text: &mut [u8],
) -> io::Result<()>
    requires { (length file.now ≤ length starts.old) × (length file.now < 4294967296)
        × (length file.now + 128 ≤ length text.old) × (sum a.kept ≤ length out.now) }
    ensures { (o : Outcome) → SweptTold a out.now o → OnOk result
        (Appends (W.contents writer.old) (W.contents writer.new) (concat (printed_sweep file.now o a.passes))) }
{
    let v = a.verdict;
    match v {
        Verdict::Accepted => print_passes(writer, file, a, out, starts, text),
        Verdict::Refused(r) => print_refusal(writer, r, a.place),
    }
}

// Prints rows that stand in words, of reasons or of the check, with the names of their numbers, line by line.
pub fn print_rows<W: Write>(
    writer: &mut W,
    file: &[u8],
    names: &[u32],
    named: usize,
    rows: &[u32],
    count: usize,
    reasons: bool,
    starts: &mut [u32],
    text: &mut [u8],
) -> io::Result<()>
    requires { Table file.now names.now named × (2 * count ≤ length rows.now) × (length file.now ≤ length starts.old)
        × (3 * length file.now + 128 ≤ length text.old) }
{
    let many = line_starts(file, starts);
    let lines = Lines { file, starts, many };
    for i in 0..count {
        let n = lines.table_line(names, named, rows, i, reasons, text);
        writer.write_all(&text[..n])?;
    }
    Ok(())
}

// Prints the line of a count behind its word.
pub fn print_count<W: Write>(writer: &mut W, word: &[u8], n: usize) -> io::Result<()>
    requires { length word.now ≤ 32 }
    ensures { OnOk result (Appends (W.contents writer.old) (W.contents writer.new) (count_line word.now n)) }
{
    let mut text = [0u8; 64];
    let k = count_line(word, n, &mut text);
    writer.write_all(&text[..k])
}

// Prints the line of a refusal.
pub fn print_refusal<W: Write>(writer: &mut W, r: Refusal, place: u32) -> io::Result<()>
    ensures { OnOk result (Appends (W.contents writer.old) (W.contents writer.new) (refused_line r place)) }
{
    let mut text = [0u8; 128];
    let n = refused_line(r, place, &mut text);
    writer.write_all(&text[..n])
}

// The sum of the counts of an answer.
pub fn sum_counts(counts: [u32; 16]) -> usize
    requires { sum counts < 4294967296 }
    ensures { result ≡ sum counts }
{
    let mut n: usize = 0;
    for count in &counts {
        n += *count as usize;
    }
    n
}

// Why a refusal is given.
#[tactic(auto, unfolding(crate::specs::Printed::reason, model::specs::Names::bytes))]
fn reason(r: Refusal) -> &'static [u8]
    ensures { (result.now ≡ reason r) × (length result.now ≤ 64) }
{
    match r {
        Refusal::Form => b"not a line of a fact file",
        Refusal::Name => b"a field is no name",
        Refusal::Number => b"a field is no number, or one out of its range",
        Refusal::Term => b"no term line before has this number",
        Refusal::Repeated => b"the name is taken by an earlier assume, fun or def",
        Refusal::FullNames => b"the file has more than 2,048 names",
        Refusal::Working => b"a working slice is too short",
        Refusal::Room => b"the result slice is too short",
        Refusal::Size => b"the file has more than 65,535 bytes",
        Refusal::FullTerms => b"the file has more than 4,096 term lines or 16,384 references",
        Refusal::FullRecords => b"the file has more than 1,024 record lines",
        Refusal::FullTriggers => b"the file has more than 2,048 trigger entries or 6,144 name uses",
        Refusal::FullAsks => b"the file has more than 16 ask and also lines",
        Refusal::Position => b"the file has no ask or also line at this position",
    }
}

// Whether the place of a refusal is a line.
#[tactic(auto, unfolding(crate::specs::Printed::has_line))]
fn has_line(r: Refusal) -> bool
    ensures { result ≡ has_line r }
{
    match r {
        Refusal::Working | Refusal::Room | Refusal::Size | Refusal::Position => false,
        _ => true,
    }
}

// Writes a refusal in words, after its line where it has one; the length.
pub fn reason_line(r: Refusal, place: u32, text: &mut [u8]) -> usize
    requires { 128 ≤ length text.old }
    ensures { TextBegins (reason_line r place) text.new result }
{
    if has_line(r) {
        let mut at = put(text, 0, b"line ");
        at = put_number(text, at, place);
        at = put(text, at, b": ");
        at = put(text, at, reason(r));
        return put(text, at, b"\n");
    }
    let at = put(text, 0, reason(r));
    put(text, at, b"\n")
}
