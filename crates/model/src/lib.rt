#![tactic(auto)]

// Why a file or a call is refused. The number of each in documents 01 and 02 is `refusal_number` of specs/Outcome.antt.
#[derive(Clone, Copy)]
pub enum Refusal {
    Form = 1,
    Name = 2,
    Number = 3,
    Term = 4,
    Repeated = 5,
    FullNames = 6,
    Working = 7,
    Room = 8,
    Size = 9,
    FullTerms = 10,
    FullRecords = 11,
    FullTriggers = 12,
    FullAsks = 13,
    Position = 15,
}

// What a call comes to: the lists of the asks, or a refusal. No `Result`: on a refusal too an exported call promises its place
// and its counts (`KeptPromise` of `filter`, `sweep`, `why`, `order`), so the verdict stands beside them.
#[derive(Clone, Copy)]
pub enum Verdict {
    Accepted,
    Refused(Refusal),
}

// The answer of a call, its counts by the position of an ask or also line, 0 past the last. A refusal has its place, and every
// count 0; lists have place 0.
#[derive(Clone, Copy)]
pub struct Answer {
    pub verdict: Verdict,
    pub place: u32,
    pub kept: [u32; 16],
    pub visits: [u32; 16],
    pub rounds: [u32; 16],
}

// What the call of reasons comes to: how many of the numbered names are met, and how many rows are filled. A refusal has its
// place, and both counts 0; rows have place 0.
#[derive(Clone, Copy)]
pub struct Why {
    pub verdict: Verdict,
    pub place: u32,
    pub met: usize,
    pub rows: usize,
}

// What the call of the sweep comes to: the kept lines and the passes by the position of an ask or also line, 0 past the last. A
// refusal has its place, and every count 0; lists have place 0.
#[derive(Clone, Copy)]
pub struct Swept {
    pub verdict: Verdict,
    pub place: u32,
    pub kept: [u32; 16],
    pub passes: [u32; 16],
}

// What the call of the check of definitions comes to: how many rows are listed. A refusal has its place, and no rows; rows have
// place 0.
#[derive(Clone, Copy)]
pub struct Ordered {
    pub verdict: Verdict,
    pub place: u32,
    pub rows: usize,
}

// A row of a lent table: a line, the number of a name in order of first spelling, and what the row says of the two.
#[repr(C)]
#[derive(Clone, Copy)]
pub struct Row {
    pub line: u32,
    pub number: u32,
    pub cause: u32,
}

// The kind of a summary: dropped, ambient (true: also a root), or so many disjuncts of trigger names.
#[derive(Clone, Copy)]
pub enum AsumKind {
    Drop,
    Ambient(bool),
    Triggers(usize),
}

// The word of an `op` line.
#[derive(Clone, Copy)]
pub enum Op {
    TrueOp,
    Iff,
    Eq,
    And,
    Other,
}

// The kind of a line, as the definitions speak of it; what the reader acts on is `Kind` of `fields`, by who reads the line.
#[derive(Clone, Copy)]
pub enum LineKind {
    Ask,
    Ask2,
    Also,
    Hide,
    Free,
    Leaf,
    Call,
    Op,
    All,
    Some,
    Let,
    Label,
    Assume,
    Fun,
    Def,
    Retain,
    Root,
}

// The limits of document 01: the bytes of a file, and what its lines may hold of each sort.
pub const MOST_BYTES: usize = 65535;

pub const MOST_NAMES: usize = 2048;

pub const MOST_TERMS: usize = 4096;

pub const MOST_REFERENCES: usize = 16384;

pub const MOST_RECORDS: usize = 1024;

pub const MOST_ENTRIES: usize = 2048;

pub const MOST_USES: usize = 6144;

// The highest number of a query, of options, of a group, and of the groups that an ask admits.
pub const MOST_QUERY: u32 = 255;

pub const MOST_OPTIONS: u32 = 15;

pub const MOST_GROUP: u32 = 15;

pub const MOST_GROUPS: u32 = 65535;

// The ask and also lines that a file may have.
pub const MOST_ASKS: usize = 16;

// The lines that a call can keep: for each position every record line of a file.
pub const MOST_KEPT: usize = MOST_ASKS * MOST_RECORDS;

// The rows that the table of the call of reasons must have room for: one for each trigger entry.
pub const MOST_ROWS: usize = MOST_ENTRIES;

// The words of a working slice that a call uses.
pub const WORKING_WORDS: usize = 16384;

// How much of the tables the lines read so far fill: asks (the also lines among them), hide lines, names, references, terms,
// records (the hide lines among them), trigger entries, name uses; the next mark; and whether the file is of the form with
// groups.
#[derive(Clone, Copy)]
pub struct Counts {
    pub asks: usize,
    pub hides: usize,
    pub names: usize,
    pub references: usize,
    pub terms: usize,
    pub records: usize,
    pub entries: usize,
    pub uses: usize,
    pub mark: usize,
    pub grouped: bool,
}

// What a run is asked: the queries of the positions from `first` on before `end`, an options number, and the number of the
// groups that are admitted.
#[derive(Clone, Copy)]
pub struct Asked {
    pub first: usize,
    pub end: usize,
    pub options: usize,
    pub groups: usize,
}

// A refusal and its place: the number of a line from 1 on, or 0 where no line is at fault.
#[derive(Clone, Copy)]
pub struct Refused {
    pub refusal: Refusal,
    pub place: u32,
}
