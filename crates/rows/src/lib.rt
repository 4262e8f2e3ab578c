// Rows of three numbers: in two words each of a working slice until they are written, and in a lent slice of structs.
#![tactic(auto)]

ghost use Rattle.std.specs.Prelude.{◌+◌, ◌*◌, ◌≤◌, ◌<◌, ◌≡◌, ◌++◌, length, get_or, set, drop};
ghost use Rattle.words.specs.Slices.{Zeroed};
ghost use Rattle.rows.specs.Rows.{row, pair, rows_held};

use model::Row;

// The row that stands in two words of a slice, behind i rows: its line, then the number of its name and its third number in
// one.
pub fn row_at(core: &[u32], i: usize) -> Row
    requires { 2 * i + 1 < length core.now }
    ensures { result ≡ row (get_or core.now (2 * i) 0) (get_or core.now (2 * i + 1) 0) }
{
    let j = 2 * i;
    let pair = core[j + 1];
    Row {
        line: core[j],
        number: pair / 65536,
        cause: pair % 65536,
    }
}

// Puts a row into two words of a slice, behind i rows.
pub fn put_row(core: &mut [u32], i: usize, line: u32, number: u32, cause: u32)
    requires { (2 * i + 1 < length core.old) × (number < 65536) × (cause < 65536) }
    ensures { core.new ≡ set (set core.old (2 * i) line) (2 * i + 1) (pair number cause) }
{
    let j = 2 * i;
    core[j] = line;
    core[j + 1] = number * 65536 + cause;
}

// Writes the first rows of a slice to a table, from its start; the rows past them stay.
pub fn write_rows(core: &[u32], count: usize, rows: &mut [Row])
    requires { (2 * count ≤ length core.now) × (count ≤ length rows.old) }
    ensures { rows.new ≡ rows_held count core.now ++ drop count rows.old }
{
    for i in 0..count {
        rows[i] = row_at(core, i);
    }
}

// Clears the words of the first rows of a slice.
pub fn clear_rows(core: &mut [u32], count: usize)
    requires { 2 * count ≤ length core.old }
    ensures { Zeroed 0 (2 * count) core.old core.new }
{
    words::clear(core, 0, 2 * count)
}
