// The tables that an engine reads.
use model::Counts;

// The name table, the record table and the lists, lent for reading, and how many of each there are.
#[derive(Clone, Copy)]
pub struct RecordTables<'a> {
    pub names: &'a [u32],
    pub recs: &'a [u32],
    pub lists: &'a [u32],
    pub k: Counts,
}
