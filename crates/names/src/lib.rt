#![tactic(auto)]

ghost use Rattle.std.specs.Prelude.{◌+◌, ◌≤◌, ◌<◌, ◌≡◌, length, Err};
ghost use Rattle.model.specs.Lists.{part};
ghost use Rattle.model.specs.Reading.{most_names};
ghost use Rattle.model.specs.Outcome.{working_words};
ghost use Rattle.text.specs.Parts.{IsPart, shared, comparison};
ghost use Rattle.names.specs.Known.{head_code, head_word, known_text};
ghost use Rattle.names.specs.Table.{length_column, name_start, name_length, name_code, Table, is_excluded, excluded_at, name_of, table_names, look_up, index_with, spell_answer, spell_table};

use std::cmp::Ordering;

// What spelling a name comes to: the number that it has, the number that it is given, or that the table is full. These are
// three answers that `fields` and `summary` take three ways, and no error among them.
#[derive(Clone, Copy)]
pub enum Spelled {
    Known(usize),
    New(usize),
    Full,
}

// The columns of the name table, by their first word. By number: where the name starts in the file (from word 0), its length,
// its head code, with `EXCLUDED_MARK` added where it is excluded. By rank in byte order: the number.
pub const LENGTH: usize = 2048;

pub const INDEX: usize = 4096;

pub const CODE: usize = 6144;

// What is added to the head code of an excluded name, above every head code.
pub const EXCLUDED_MARK: usize = 32;

// The known names in the order of their codes, each behind its length.
const KNOWN: [u8; 250] =
    *b"\x05SFuel\x05ZFuel\x07HasType\x08HasTypeZ\x0bHasTypeFuel\x05Valid\x07ApplyTT\x07ApplyTF\x0bPrims.lex_t\x0ais-BoxBool\
      \x09is-BoxInt\x0cis-BoxString\x0ais-BoxReal\x0ais-BoxProp\x07BoxBool\x06BoxInt\x09BoxString\x07BoxReal\x07BoxProp\
      \x0cPrims.squash\x0bPrims.hasEq\x08IsTotFun\x0bis-Tm_arrow\x0eTerm_constr_id\x10__uu__PartialApp";

// The first head code behind those of `exclude_names`.
const FIRST_OTHER: u32 = 10;

// The lengths of the shortest known name and of the longest.
const SHORTEST: usize = 5;

const LONGEST: usize = 16;

// The head code of the part from `a` up to `e`: its place among the known names from 1, or 0.
#[tactic(auto, using(crate::proofs::Codes::head_short, crate::proofs::Codes::head_long))]
fn head_code(file: &[u8], a: usize, e: usize) -> u32
    requires { (a ≤ e) × (e ≤ length file.now) }
    ensures { result ≡ head_code (part file.now a e) }
{
    match e - a {
        SHORTEST..=LONGEST => code_in(file, a, e, &KNOWN),
        _ => 0,
    }
}

// The head code of a part of any length, by the text of the known names.
fn code_in(file: &[u8], a: usize, e: usize, known: &[u8]) -> u32
    requires { (a ≤ e) × (e ≤ length file.now) × (known.now ≡ known_text) }
    ensures { result ≡ head_code (part file.now a e) }
{
    let mut code: u32 = 1;
    let mut i: usize = 0;
    // No range counts the turns: each name is stepped over by its own length, as `known_text` of specs/Known has them.
    while i < known.len() {
        let start = i + 1;
        let stop = start + wide(known[i]);
        if text::same_text(file, a, e, &known[start..stop]) {
            return code;
        }
        code += 1;
        i = stop;
    }
    0
}

// The word of the part from `a` up to `e`: its head code, marked where it is one of `exclude_names`, codes 1 to 9.
fn head_word(file: &[u8], a: usize, e: usize) -> u32
    requires { (a ≤ e) × (e ≤ length file.now) }
    ensures { result ≡ head_word (part file.now a e) }
{
    let code = head_code(file, a, e);
    if code == 0 {
        return 0;
    }
    if code < FIRST_OTHER {
        return code + EXCLUDED_MARK as u32;
    }
    code
}

// A byte as a number.
fn wide(b: u8) -> usize
    ensures { result ≡ b }
{
    b as usize
}

// How the name of a number stands to the part from `a` up to `e`, whose first `from` bytes it is known to share.
fn compare(file: &[u8], w: &[u32], n: usize, a: usize, e: usize, from: usize) -> text::Comparison
    requires { (length_column + n < length w.now) × (name_start w.now n + name_length w.now n ≤ length file.now)
        × (a ≤ e) × (e ≤ length file.now) × (from ≤ shared (name_of file.now w.now n) (part file.now a e)) }
    ensures { result ≡ comparison (name_of file.now w.now n) (part file.now a e) }
{
    let start = words::at(w, n);
    let size = words::at(w, LENGTH + n);
    text::compare_from(file, start, start + size, a, e, from)
}

// The number of the name from `a` up to `e`, or as an error the rank where it belongs: a binary search in the byte-order index.
// The name shares `below` bytes with the name before the rank `low` and `above` bytes with the one at `high`, or none where
// there is no such name; what stands between the two shares at least the lesser number of bytes with it.
fn look_up(file: &[u8], w: &[u32], named: usize, a: usize, e: usize) -> Result<usize, usize>
    requires { Table file.now w.now named × (a ≤ e) × (e ≤ length file.now) }
    ensures { result ≡ look_up (table_names file.now w.now named) (part file.now a e) }
{
    let mut low: usize = 0;
    let mut high = named;
    let mut below: usize = 0;
    let mut above: usize = 0;
    // Not `binary_search_by` of the index: how many bytes are shared with the names on both sides goes from turn to turn.
    while low < high {
        let middle = low + (high - low) / 2;
        let n = words::at(w, INDEX + middle);
        let met = compare(file, w, n, a, e, below.min(above));
        match met.order {
            Ordering::Less => {
                low = middle + 1;
                below = met.shared;
            }
            Ordering::Equal => return Ok(n),
            Ordering::Greater => {
                high = middle;
                above = met.shared;
            }
        }
    }
    Err(low)
}

// Spells the name from `a` up to `e`: a new one takes the number `named`, unless the table is full.
pub fn spell(file: &[u8], w: &mut [u32], named: usize, a: usize, e: usize) -> Spelled
    requires { Table file.now w.old named × (a ≤ e) × (e ≤ length file.now) }
    ensures answer { result ≡ spell_answer named (look_up (table_names file.now w.old named)
        (part file.now a e)) }
    ensures table { w.new ≡ spell_table file.now w.old named a e
        (look_up (table_names file.now w.old named) (part file.now a e)) }
{
    match look_up(file, w, named, a, e) {
        Ok(n) => Spelled::Known(n),
        Err(rank) => enter(file, w, named, a, e, rank),
    }
}

// Enters the name from `a` up to `e`, which belongs at a rank: it takes the number `named`, unless the table is full.
fn enter(file: &[u8], w: &mut [u32], named: usize, a: usize, e: usize, rank: usize) -> Spelled
    requires { Table file.now w.old named × (a ≤ e) × (e ≤ length file.now) × (rank ≤ named) }
    ensures answer { result ≡ spell_answer named (Err rank) }
    ensures table { w.new ≡ spell_table file.now w.old named a e (Err rank) }
{
    if model::MOST_NAMES <= named {
        return Spelled::Full;
    }
    put_index(w, named, rank);
    w[named] = a as u32;
    w[LENGTH + named] = (e - a) as u32;
    w[CODE + named] = head_word(file, a, e);
    Spelled::New(named)
}

// Puts the number `named` into the byte-order index at a rank, the later ranks moved up by one.
fn put_index(w: &mut [u32], named: usize, rank: usize)
    requires { (rank ≤ named) × (named < most_names) × (working_words ≤ length w.old) }
    ensures { w.new ≡ index_with w.old named rank }
{
    w.copy_within(INDEX + rank..INDEX + named, INDEX + rank + 1);
    w[INDEX + rank] = named as u32;
}

// The part of the file that holds a name's bytes, in its place.
pub fn name_part<'a>(file: &'a [u8], w: &[u32], named: usize, n: usize) -> &'a [u8]
    requires { Table file.now w.now named × (n < named) }
    ensures bytes { result.now ≡ name_of file.now w.now n }
    ensures place { IsPart file.entry (name_start w.now n)
        (name_start w.now n + name_length w.now n) result }
{
    let start = words::at(w, n);
    let len = words::at(w, LENGTH + n);
    &file[start..start + len]
}

// The head code of a name.
pub fn code_at(w: &[u32], n: usize) -> usize
    requires { (n < most_names) × (working_words ≤ length w.now) }
    ensures { result ≡ name_code w.now n }
{
    words::at(w, CODE + n) % EXCLUDED_MARK
}

// Whether a name is excluded: its word has the mark.
pub fn is_excluded(w: &[u32], n: usize) -> bool
    requires { (n < most_names) × (working_words ≤ length w.now) }
    ensures { result ≡ is_excluded w.now n }
{
    EXCLUDED_MARK <= words::at(w, CODE + n)
}

// Excludes a name.
pub fn exclude(w: &mut [u32], n: usize)
    requires { (n < most_names) × (working_words ≤ length w.old) }
    ensures { w.new ≡ excluded_at w.old n }
{
    let code = code_at(w, n);
    w[CODE + n] = (code + EXCLUDED_MARK) as u32;
}
