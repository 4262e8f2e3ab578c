#![tactic(auto)]

ghost use Rattle.std.specs.Prelude.{◌≤◌, ◌+◌, min, ◌≡◌, length};
ghost use Rattle.std.specs.Prelude.{Some as some};
ghost use Rattle.model.specs.Lists.{part};
ghost use Rattle.model.specs.Names.{same, starts_with, ends_with};
ghost use Rattle.model.specs.Lines.{fields, is_name_byte, number};
ghost use Rattle.text.specs.Parts.{mark_at, shared, comparison, Placed, field_at, sized_name, name_at, valued, at_most, number_at, term_at};

use model::Refusal;
use std::cmp::Ordering;

// The longest name.
const MOST_LENGTH: usize = 255;

// The largest number that a field may be.
pub const MOST_NUMBER: u32 = 65535;

// A place in a line: the next field starts at `at`, and the line's bytes end before `end`. Past `end` no field is left.
#[derive(Clone, Copy)]
pub struct Cursor {
    pub at: usize,
    pub end: usize,
}

// How two parts of a file stand to each other: their byte order, and how many bytes they share at their starts.
#[derive(Clone, Copy)]
pub struct Comparison {
    pub order: Ordering,
    pub shared: usize,
}

// A field of a line, from `start` up to `end`, and the cursor after it.
#[derive(Clone, Copy)]
pub struct Part {
    pub start: usize,
    pub end: usize,
    pub next: Cursor,
}

// The first position from `at` up to `end` where `mark` stands, or `end`, byte by byte.
fn find_near(s: &[u8], mark: u8, at: usize, end: usize) -> usize
    requires { (at ≤ end) × (end ≤ length s.now) }
    ensures { result ≡ mark_at mark s.now at end }
{
    // Not by `position`: it takes 216 instructions over a short part where this takes 184, and the proof did not close.
    for j in at..end {
        if s[j] == mark {
            return j;
        }
    }
    end
}

// The first position from `at` up to `end` where `mark` stands, or `end`. Four bytes are looked at in a turn.
pub fn find(s: &[u8], mark: u8, at: usize, end: usize) -> usize
    requires { (at ≤ end) × (end ≤ length s.now) }
    ensures { result ≡ mark_at mark s.now at end }
{
    let mut i = at;
    // Four places a turn, so no range counts the turns: most bytes of a file are passed here, and the test of the end costs.
    while 4 <= end - i {
        if s[i] == mark {
            return i;
        }
        if s[i + 1] == mark {
            return i + 1;
        }
        if s[i + 2] == mark {
            return i + 2;
        }
        if s[i + 3] == mark {
            return i + 3;
        }
        i += 4;
    }
    find_near(s, mark, i, end)
}

// How many fields stand from `at` up to `end`.
pub fn count_fields(s: &[u8], at: usize, end: usize) -> usize
    requires { (at ≤ end) × (end ≤ length s.now) × (length s.now ≤ 65535) }
    ensures { result ≡ length (fields (part s.now at end)) }
{
    let mut n: usize = 1;
    // Not by `filter` and `count`: they take 290 instructions over a short line where this takes 200.
    for i in at..end {
        if s[i] == b',' {
            n += 1;
        }
    }
    n
}

// Whether a name may hold a byte.
fn is_name_byte(b: u8) -> bool
    ensures { result ≡ is_name_byte b }
{
    if b <= b',' {
        if b == b',' {
            return false;
        }
        return 0x21 <= b;
    }
    b <= 0x7e
}

// Whether the part from `a` up to `e` is the word.
pub fn same_text(s: &[u8], a: usize, e: usize, word: &[u8]) -> bool
    requires { (a ≤ e) × (e ≤ length s.now) }
    ensures { result ≡ same (part s.now a e) word.now }
{
    &s[a..e] == word
}

// Whether the part from `a` up to `e` begins with the prefix.
pub fn starts_with(s: &[u8], a: usize, e: usize, prefix: &[u8]) -> bool
    requires { (a ≤ e) × (e ≤ length s.now) }
    ensures { result ≡ starts_with (part s.now a e) prefix.now }
{
    if e - a < prefix.len() {
        return false;
    }
    same_text(s, a, a + prefix.len(), prefix)
}

// Whether the part from `a` up to `e` ends with the suffix.
pub fn ends_with(s: &[u8], a: usize, e: usize, suffix: &[u8]) -> bool
    requires { (a ≤ e) × (e ≤ length s.now) }
    ensures { result ≡ ends_with (part s.now a e) suffix.now }
{
    if e - a < suffix.len() {
        return false;
    }
    same_text(s, e - suffix.len(), e, suffix)
}

// The byte order of the parts from `a` up to `e` and from `b` up to `f`, a prefix first, and how many bytes they share at their
// starts. The first `from` bytes are known to be shared, and are not looked at.
pub fn compare_from(s: &[u8], a: usize, e: usize, b: usize, f: usize, from: usize) -> Comparison
    requires { (a ≤ e) × (e ≤ length s.now) × (b ≤ f) × (f ≤ length s.now)
        × (from ≤ shared (part s.now a e) (part s.now b f)) }
    ensures { result ≡ comparison (part s.now a e) (part s.now b f) }
{
    let first_size = e - a;
    let second_size = f - b;
    let shorter = first_size.min(second_size);
    for i in from..shorter {
        let x = s[a + i];
        let y = s[b + i];
        if x != y {
            return Comparison {
                order: x.cmp(&y),
                shared: i,
            };
        }
    }
    Comparison {
        order: first_size.cmp(&second_size),
        shared: shorter,
    }
}

// The field from `at` up to `stop` in a line that ends at `end`: its bytes may stand in a name, and its length decides.
fn sized_name(at: usize, stop: usize, end: usize) -> Result<Part, Refusal>
    requires { (at ≤ stop) × (stop ≤ 65535) }
    ensures { result ≡ sized_name at stop end }
{
    match stop - at {
        1..=MOST_LENGTH => Ok(Part {
            start: at,
            end: stop,
            next: Cursor { at: stop + 1, end },
        }),
        _ => Err(Refusal::Name),
    }
}

// The number from `at` up to `stop` in a line that ends at `end`, digits of the value `n`: one digit at least, no zero in
// front.
fn valued_number(
    s: &[u8],
    at: usize,
    stop: usize,
    end: usize,
    n: u32,
    limit: u32,
) -> Result<(u32, Cursor), Refusal>
    requires { (at ≤ stop) × (stop ≤ length s.now) × (length s.now ≤ 65535)
        × (valued 0 (part s.now at stop) ≡ some n) }
    ensures { result ≡ at_most limit (record { at = stop + 1; end = end }) (number (part s.now at stop)) }
{
    if stop == at {
        return Err(Refusal::Number);
    }
    let several = 1 < stop - at;
    if several {
        if s[at] == b'0' {
            return Err(Refusal::Number);
        }
    }
    if n <= limit {
        return Ok((n, Cursor { at: stop + 1, end }));
    }
    Err(Refusal::Number)
}

impl Cursor {
    // The next field.
    pub fn field(self, s: &[u8]) -> Result<Part, Refusal>
        requires { Placed s.now self }
        ensures { result ≡ field_at s.now self }
    {
        let at = self.at;
        let end = self.end;
        if end < at {
            return Err(Refusal::Form);
        }
        let stop = find(s, b',', at, end);
        Ok(Part {
            start: at,
            end: stop,
            next: Cursor { at: stop + 1, end },
        })
    }

    // The next field, a name. Its bytes are judged on the way to its end.
    pub fn name(self, s: &[u8]) -> Result<Part, Refusal>
        requires { Placed s.now self }
        ensures { result ≡ name_at s.now self }
    {
        let at = self.at;
        let end = self.end;
        if self.end < self.at {
            return Err(Refusal::Form);
        }
        for i in at..end {
            let b = s[i];
            if !is_name_byte(b) {
                if b != b',' {
                    return Err(Refusal::Name);
                }
                return sized_name(at, i, end);
            }
        }
        sized_name(at, end, end)
    }

    // The next field, a number of at most `limit`. Its digits are added up on the way to its end, until the
    // value is too large.
    pub fn number(self, s: &[u8], limit: u32) -> Result<(u32, Cursor), Refusal>
        requires { Placed s.now self }
        ensures { result ≡ number_at limit s.now self }
    {
        let at = self.at;
        let end = self.end;
        if self.end < self.at {
            return Err(Refusal::Form);
        }
        let mut n: u32 = 0;
        for i in at..end {
            let b = s[i];
            if b < b'0' {
                if b != b',' {
                    return Err(Refusal::Number);
                }
                return valued_number(s, at, i, end, n, limit);
            }
            if b'9' < b {
                return Err(Refusal::Number);
            }
            n = n * 10 + (b - b'0') as u32;
            if MOST_NUMBER < n {
                return Err(Refusal::Number);
            }
        }
        valued_number(s, at, end, end, n, limit)
    }

    // The next field, the number of one of `count` terms.
    #[tactic(auto, unfolding(crate::specs::Parts::term_at, crate::specs::Parts::as_term))]
    pub fn term(self, s: &[u8], count: u32) -> Result<(u32, Cursor), Refusal>
        requires { Placed s.now self }
        ensures { result ≡ term_at count s.now self }
    {
        let (n, next) = self.number(s, MOST_NUMBER)?;
        if n < count {
            Ok((n, next))
        } else {
            Err(Refusal::Term)
        }
    }
}
