// The tables of a file that is read: the file, its name table and its term table, and how many names, references and terms
// they have.
ghost use Rattle.rules.specs.Views.{Tables};
ghost use Rattle.rules.specs.Once.{Tables-prop};

#[derive(Clone, Copy)]
pub struct TermTables<'a> {
    pub file: &'a [u8],
    pub names: &'a [u32],
    pub refs: &'a [u32],
    pub rows: &'a [u32],
    pub named: usize,
    pub used: usize,
    pub many: usize,
    pub ghost tables: { Tables file.now names.now refs.now rows.now named used many } by { Tables-prop file.now names.now refs.now rows.now named used many },
}
