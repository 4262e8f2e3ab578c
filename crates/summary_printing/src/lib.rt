// The printed summaries of the facts of a file, from its tables: a line for each, `fact,LINE`, its name and its rule where they
// are asked for, `drop`, `ambient,0` or `1`, or `triggers` with its disjuncts, then its free names. Names are in byte order.
#![tactic(auto)]

ghost use Rattle.std.specs.Prelude.{◌≤◌, length};
ghost use Rattle.model.specs.Reading.{most_records};
ghost use Rattle.model.specs.Outcome.{working_words};
ghost use Rattle.macros.specs.Macros.{Filled};
ghost use Rattle.reader.specs.Lines.{TermsStand};
ghost use Rattle.summary_printing.specs.Facts.{IsPrintable};

use itoa::Buffer;
use model::Counts;
use rules::tables::TermTables;
use std::io::{self, Write};

// Prints a number in decimal digits.
fn put_number<W: Write>(writer: &mut W, n: usize) -> io::Result<()> {
    writer.write_all(Buffer::new().format(n).as_bytes())
}

// Prints a name and the number of a rule, each behind a comma.
fn put_named<W: Write>(writer: &mut W, name: &[u8], rule: usize) -> io::Result<()> {
    writer.write_all(b",")?;
    writer.write_all(name)?;
    writer.write_all(b",")?;
    put_number(writer, rule)
}

// Prints the kind of a summary by its code.
fn put_kind<W: Write>(writer: &mut W, code: usize) -> io::Result<()> {
    match code {
        records::DROP => writer.write_all(b",drop"),
        records::AMBIENT => writer.write_all(b",ambient,0"),
        records::AMBIENT_ROOT => writer.write_all(b",ambient,1"),
        _ => writer.write_all(b",triggers"),
    }
}

// Whether the words from `a` up to `e` have the number of a name.
fn has_number(lists: &[u32], a: usize, e: usize, n: usize) -> bool
    requires { e ≤ length lists.now }
{
    for i in a..e {
        if words::at(lists, i) % triggers::LAST == n {
            return true;
        }
    }
    false
}

// A fact, the i-th record of the tables of a file.
#[derive(Clone, Copy)]
struct Fact<'a> {
    file: &'a [u8],
    names: &'a [u32],
    refs: &'a [u32],
    rows: &'a [u32],
    recs: &'a [u32],
    lists: &'a [u32],
    k: Counts,
    i: usize,
}

impl Fact<'_> {
    // Prints in braces and in byte order the names whose numbers stand from `a` up to `e`.
    fn put_set<W: Write>(&self, writer: &mut W, a: usize, e: usize) -> io::Result<()>
        requires { IsPrintable self.now × (e ≤ length self.now.lists.now) }
    {
        let Fact {
            file,
            names,
            lists,
            k,
            ..
        } = *self;
        writer.write_all(b"{")?;
        let mut gap: &[u8] = b"";
        for r in 0..k.names {
            let n = words::at(names, names::INDEX + r);
            if has_number(lists, a, e, n) {
                writer.write_all(gap)?;
                writer.write_all(names::name_part(file, names, k.names, n))?;
                gap = b" ";
            }
        }
        writer.write_all(b"}")
    }

    // Prints a disjunct, whose entries stand from `a` up to `e`, behind a comma.
    fn put_disjunct<W: Write>(&self, writer: &mut W, a: usize, e: usize) -> io::Result<()>
        requires { IsPrintable self.now × (e ≤ length self.now.lists.now) }
    {
        writer.write_all(b",")?;
        self.put_set(writer, a, e)
    }

    // Prints the disjuncts whose entries stand from `a` up to `e`.
    fn put_disjuncts<W: Write>(&self, writer: &mut W, a: usize, e: usize) -> io::Result<()>
        requires { IsPrintable self.now × (e ≤ length self.now.lists.now) }
    {
        let mut from = a;
        for i in a..e {
            if triggers::LAST <= words::at(self.lists, i) {
                self.put_disjunct(writer, from, i + 1)?;
                from = i + 1;
            }
        }
        Ok(())
    }

    // Prints its name and the number of the rule that gave it its kind.
    fn put_rule<W: Write>(&self, writer: &mut W) -> io::Result<()>
        requires { IsPrintable self.now }
    {
        let name = words::at(self.recs, records::NAME + self.i);
        let t = words::at(self.recs, records::TERM + self.i);
        let tables = TermTables {
            file: self.file,
            names: self.names,
            refs: self.refs,
            rows: self.rows,
            named: self.k.names,
            used: self.k.references,
            many: self.k.terms,
        };
        let rule = tables.rule_of(name, t);
        put_named(
            writer,
            names::name_part(self.file, self.names, self.k.names, name),
            rule,
        )
    }

    // Prints its line as far as its summary. Its name and its rule stand there where they are asked for.
    fn put_head<W: Write>(&self, writer: &mut W, ruled: bool) -> io::Result<()>
        requires { IsPrintable self.now }
    {
        writer.write_all(b"fact,")?;
        put_number(writer, words::at(self.recs, records::LINE + self.i))?;
        if ruled { self.put_rule(writer) } else { Ok(()) }
    }

    // Prints its kind and its disjuncts.
    fn put_summary<W: Write>(&self, writer: &mut W) -> io::Result<()>
        requires { IsPrintable self.now }
    {
        put_kind(writer, words::at(self.recs, records::SUMMARY + self.i))?;
        let start = words::at(self.recs, records::ENTRIES_START + self.i);
        let end = words::at(self.recs, records::ENTRIES_END + self.i);
        self.put_disjuncts(writer, triggers::ENTRIES + start, triggers::ENTRIES + end)
    }

    // Prints its free names, to the end of its line.
    fn put_free<W: Write>(&self, writer: &mut W) -> io::Result<()>
        requires { IsPrintable self.now }
    {
        writer.write_all(b" free=")?;
        let from = words::at(self.recs, records::USES_START + self.i);
        let to = words::at(self.recs, records::USES_END + self.i);
        self.put_set(writer, from, to)?;
        writer.write_all(b"\n")
    }

    // Prints its summary, with its name and its rule or without.
    fn put<W: Write>(&self, writer: &mut W, ruled: bool) -> io::Result<()>
        requires { IsPrintable self.now }
    {
        self.put_head(writer, ruled)?;
        self.put_summary(writer)?;
        self.put_free(writer)
    }
}

// Prints the summary of each fact, with its name and its rule or without. The tables are loose, as the reader leaves them: six
// slices of the caller.
pub fn put_facts<W: Write>(
    writer: &mut W,
    file: &[u8],
    names: &[u32],
    refs: &[u32],
    rows: &[u32],
    recs: &[u32],
    lists: &[u32],
    k: Counts,
    ruled: bool,
) -> io::Result<()>
    requires { Filled file.now names.now recs.now lists.now k × TermsStand refs.now rows.now recs.now k }
{
    for i in 0..k.records {
        if words::at(recs, records::KIND + i) == records::ASSUME {
            let fact = Fact {
                file,
                names,
                refs,
                rows,
                recs,
                lists,
                k,
                i,
            };
            fact.put(writer, ruled)?;
        }
    }
    Ok(())
}

// How many facts there are.
pub fn count_facts(recs: &[u32], k: Counts) -> usize
    requires { (working_words ≤ length recs.now) × (k.records ≤ most_records) }
{
    let mut count: usize = 0;
    for i in 0..k.records {
        if words::at(recs, records::KIND + i) == records::ASSUME {
            count += 1;
        }
    }
    count
}
