// The row of bits of the met names in words of the run's slice, 32 to a word, the lowest first, and the count of its ones.
#![tactic(auto)]

ghost use Rattle.std.specs.Prelude.{◌≡◌, ◌+◌, ◌*◌, ◌/◌, ◌≤◌, ◌<◌, length, take};
ghost use Rattle.bits.specs.Bits.{bits_from, ones_of, SetBit, Unmarked, Marked, met_column, Met};

use words::at;

// Sets the n-th bit from a word on.
fn set_bit(words: &mut [u32], base: usize, n: usize)
    requires { base + n / 32 < length words.old }
    ensures { SetBit base n words.old words.new }
{
    let j = base + n / 32;
    let k = n % 32;
    let w = words[j];
    if (w >> k) % 2 == 0 {
        words[j] = w + (1 << k);
    }
}

// How many bits are set in so many words from a word on.
fn count_ones(words: &[u32], base: usize, size: usize) -> usize
    requires { (base + size ≤ length words.now) × (size ≤ 64) }
    ensures { result ≡ ones_of (take (32 * size) (bits_from base words.now)) }
{
    let mut total: usize = 0;
    for i in 0..size {
        let ones = words[base + i].count_ones() as usize;
        total += ones;
    }
    total
}

// Sets, from a word on, the bit of each word of a column that is not zero.
fn mark_bits(w: &mut [u32], column: usize, size: usize, base: usize)
    requires { Unmarked column size base w.old }
    ensures { Marked column size base w.old w.new }
{
    for n in 0..size {
        if at(w, column + n) == 0 {
            continue;
        }
        set_bit(w, base, n);
    }
}

// The first of the 64 words of the run's slice that hold the bits of the met names.
const MET_BITS: usize = 7168;

// How many of the numbered names are met: the round of each stands in the first words, 0 where it is not met. The row of their
// bits is left in 64 words.
pub fn count_met(run: &mut [u32], named: usize) -> usize
    requires { (met_column + 64 ≤ length run.old) × (named ≤ 2048) }
    ensures { Met named run.old run.new result }
{
    words::clear(run, MET_BITS, 64);
    mark_bits(run, 0, named, MET_BITS);
    count_ones(run, MET_BITS, 64)
}
