#![tactic(auto)]

ghost use Rattle.std.specs.Prelude.{ℕ, ◌≤◌, ◌<◌, ◌≡◌, length, get_or};
ghost use Rattle.model.specs.Reading.{most_names, most_records};
ghost use Rattle.model.specs.Outcome.{working_words};
ghost use Rattle.records.specs.Columns.{taken_at};
ghost use Rattle.macros.specs.Macros.{macro_count, is_def, found_word, word_from, Found, MacrosOpened};

// Macro words from here on say the number of the name that a macro of the start opens to.
pub const OPENED: usize = 2048;

// The head code of the first macro of the start, and how many there are.
pub const FIRST_MACRO: usize = 10;

pub const MACRO_COUNT: usize = 5;

// The head code of the name that the first one opens to, and the first code after the last of these.
const FIRST_OPENED: usize = 15;

const PAST_OPENED: usize = 20;

// Finds the numbers of the names that the macros of the start open to, in one pass over the head codes.
fn find_opened(names: &[u32], named: usize, found: &mut [u32])
    requires { (named ≤ most_names) × (working_words ≤ length names.now) × (length found.old ≡ macro_count)
        × ((j : ℕ) → get_or found.old j 0 ≡ 0) }
    ensures { Found names.now named found.new }
{
    for n in 0..named {
        let c = names::code_at(names, n);
        if c < FIRST_OPENED {
            continue;
        }
        if PAST_OPENED <= c {
            continue;
        }
        found[c - FIRST_OPENED] = (n + 1) as u32;
    }
}

// The macro word of a macro of the start, by its head code; 0 for another code.
fn found_word(found: &[u32], c: usize) -> usize
    requires { (length found.now ≡ macro_count) × ((j : ℕ) → j < macro_count → get_or found.now j 0 ≤ most_names) }
    ensures { (result ≡ found_word found.now c) × (result < 4294967296) }
{
    if c < FIRST_MACRO {
        return 0;
    }
    if FIRST_OPENED <= c {
        return 0;
    }
    let m = words::at(found, c - FIRST_MACRO);
    if m == 0 {
        return 0;
    }
    OPENED + (m - 1)
}

// Whether a word of the taken column is that of a def.
pub fn is_def(recs: &[u32], taken: usize) -> bool
    requires { (taken ≤ most_records) × (working_words ≤ length recs.now) }
    ensures { result ≡ is_def recs.now taken }
{
    if taken == 0 {
        return false;
    }
    words::at(recs, records::KIND + (taken - 1)) == records::DEF
}

// The macro word of a name.
fn macro_word(names: &[u32], recs: &[u32], found: &[u32], n: usize) -> usize
    requires { (n < most_names) × (working_words ≤ length names.now) × (working_words ≤ length recs.now)
        × (taken_at names.now n ≤ most_records) × (length found.now ≡ macro_count)
        × ((j : ℕ) → j < macro_count → get_or found.now j 0 ≤ most_names) }
    ensures { (result ≡ word_from names.now recs.now found.now n) × (result < 4294967296) }
{
    let taken = words::at(names, records::TAKEN + n);
    if is_def(recs, taken) {
        return taken;
    }
    let c = names::code_at(names, n);
    found_word(found, c)
}

// Fills the macro column after the last line: one pass finds what the macros of the start open to, one writes the words.
pub fn open_macros(names: &mut [u32], recs: &[u32], named: usize)
    requires { (named ≤ most_names) × (working_words ≤ length names.old) × (working_words ≤ length recs.now)
        × ((n : ℕ) → n < named → taken_at names.old n ≤ most_records) }
    ensures { MacrosOpened names.old recs.now names.new named named }
{
    let mut found = [0; MACRO_COUNT];
    find_opened(names, named, &mut found);
    for n in 0..named {
        let word = macro_word(names, recs, &found, n);
        names[records::MACRO + n] = word as u32;
    }
}
