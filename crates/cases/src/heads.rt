// The head line of a case: the call that it is of, its name, the length of its file and of the slices that it lends.
ghost use Rattle.std.specs.Prelude.{◌-◌, ◌≤◌, ◌≡◌, length, IfSome, IfOk};
ghost use Rattle.model.specs.Lists.{part};
ghost use Rattle.cases.specs.declared.TheConstants.{MOST_FILE, MOST_WORK, MOST_ROOM};
ghost use Rattle.cases.specs.Heads.{BeginsWith};

use super::{MOST_FILE, MOST_ROOM, MOST_WORK};
use std::fmt;

// The longest head line, and the highest position.
const MOST_HEAD: usize = 512;

const MOST_POSITION: usize = 1000000;

// The numbers of a head line: the length of the file, the lengths of the working slices, the room of the result slice or of the
// table, and the position, 0 where there is none.
#[derive(Clone, Copy)]
pub struct Sizes {
    pub length: usize,
    pub n0: usize,
    pub n1: usize,
    pub n2: usize,
    pub n3: usize,
    pub n4: usize,
    pub n5: usize,
    pub room: usize,
    pub position: usize,
    pub ghost file: { length ≤ MOST_FILE },
    pub ghost work_0: { n0 ≤ MOST_WORK },
    pub ghost work_1: { n1 ≤ MOST_WORK },
    pub ghost work_2: { n2 ≤ MOST_WORK },
    pub ghost work_3: { n3 ≤ MOST_WORK },
    pub ghost work_4: { n4 ≤ MOST_WORK },
    pub ghost work_5: { n5 ≤ MOST_WORK },
    pub ghost result: { room ≤ MOST_ROOM },
}

// What a head line says: the call, the name of the case and its sizes.
#[derive(Clone, Copy)]
struct Head<'a> {
    call: &'a [u8],
    name: &'a [u8],
    sizes: Sizes,
}

// A case at the start of a window: its call, its name, its file, its sizes, and where it ends.
#[derive(Clone, Copy)]
pub struct Case<'a> {
    pub call: &'a [u8],
    pub name: &'a [u8],
    pub file: &'a [u8],
    pub sizes: Sizes,
    pub end: usize,
    pub ghost short: { length file.now ≤ MOST_FILE },
}

// Why no case stands at the start of a window: no line ends in it, the line is no head line, or the file is not whole.
#[derive(Clone, Copy)]
pub enum NoCase {
    Line,
    Head,
    File,
}

// The line that a program prints of it, which it writes at once.
impl fmt::Display for NoCase {
    fn fmt<W: fmt::Write>(&self, f: &mut fmt::Formatter<W>) -> fmt::Result {
        f.write_str(match self {
            NoCase::Line => "no case\n",
            NoCase::Head => "no head line\n",
            NoCase::File => "no whole case\n",
        })
    }
}

// The number that a field is in decimal, at most `most`; an empty field is 0.
fn size_in(field: &[u8], most: usize) -> Option<usize>
    requires { most ≤ 1000000 }
    ensures { IfSome result (λ n. n ≤ most) }
{
    let mut n: usize = 0;
    for b in field {
        if !b.is_ascii_digit() {
            return None;
        }
        n = n * 10 + (*b - b'0') as usize;
        if most < n {
            return None;
        }
    }
    Some(n)
}

// Reads a head line, whatever its first word is. The sizes that it leaves out at its end are 0.
fn head_of(line: &[u8]) -> Option<Head<'_>>
    ensures { IfSome result (λ h. BeginsWith line.now h.call.now h.name.now) }
{
    if MOST_HEAD < line.len() {
        return None;
    }
    let mut fields = line.split(|b| *b == b',');
    let call = fields.next()?;
    let name = fields.next()?;
    let length = size_in(fields.next()?, MOST_FILE)?;
    let n0 = size_in(fields.next().unwrap_or(b""), MOST_WORK)?;
    let n1 = size_in(fields.next().unwrap_or(b""), MOST_WORK)?;
    let n2 = size_in(fields.next().unwrap_or(b""), MOST_WORK)?;
    let n3 = size_in(fields.next().unwrap_or(b""), MOST_WORK)?;
    let n4 = size_in(fields.next().unwrap_or(b""), MOST_WORK)?;
    let n5 = size_in(fields.next().unwrap_or(b""), MOST_WORK)?;
    let room = size_in(fields.next().unwrap_or(b""), MOST_ROOM)?;
    let position = size_in(fields.next().unwrap_or(b""), MOST_POSITION)?;
    let sizes = Sizes {
        length,
        n0,
        n1,
        n2,
        n3,
        n4,
        n5,
        room,
        position,
    };
    Some(Head { call, name, sizes })
}

// Reads the case at the start of a window; or says what is missing.
pub fn begin_case(window: &[u8]) -> Result<Case<'_>, NoCase>
    ensures placed { IfOk result (λ c. (c.end ≤ length window.now) × (length c.file.now ≤ c.end)
        × (c.file.now ≡ part window.now (c.end - length c.file.now) c.end)) }
    ensures named { IfOk result (λ c. BeginsWith window.now c.call.now c.name.now) }
{
    let stop = text::find(window, b'\n', 0, window.len());
    if window.len() <= stop {
        return Err(NoCase::Line);
    }
    let Some(Head { call, name, sizes }) = head_of(&window[..stop]) else {
        return Err(NoCase::Head);
    };
    let start = stop + 1;
    if window.len() - start < sizes.length {
        return Err(NoCase::File);
    }
    let end = start + sizes.length;
    Ok(Case {
        call,
        name,
        file: &window[start..end],
        sizes,
        end,
    })
}
