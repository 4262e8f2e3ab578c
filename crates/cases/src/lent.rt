// The slices that a case lends, filled with other words before its call and looked at after it.
use model::{Refusal, Verdict};
use std::fmt::Display;
use std::io::Write;

// What a case lent, after its call: the working slices and the result slice, an empty one where none was lent. The program has
// the arrays: so they are filled and looked at where they stand.
#[derive(Clone, Copy)]
pub struct Lent<'a> {
    pub w0: &'a [u32],
    pub w1: &'a [u32],
    pub w2: &'a [u32],
    pub w3: &'a [u32],
    pub w4: &'a [u32],
    pub w5: &'a [u32],
    pub result: &'a [u32],
}

// The number of a word before a call: slices and places differ, none is zero, and every second one is large.
fn dirt(slice: usize, i: usize) -> u32 {
    let n = (i % 65536) * 7 + slice % 8 + 1;
    if i % 2 == 0 {
        return n as u32;
    }
    4294967295 - n as u32
}

// Fills a slice with other words, before a call. Its number is the one by which `Lent::print` knows it: 0 to 5 are the working
// slices, 6 is the result slice.
pub fn soil(w: &mut [u32], slice: usize) {
    for (i, word) in w.iter_mut().enumerate() {
        *word = dirt(slice, i);
    }
}

// Whether a slice holds what it was filled with from a place on.
fn is_left_from(w: &[u32], slice: usize, from: usize) -> bool {
    w.iter()
        .enumerate()
        .skip(from)
        .all(|(i, word)| *word == dirt(slice, i))
}

// Whether a slice holds zero up to a place and what it was filled with from there on.
fn is_left(w: &[u32], slice: usize, zeros: usize) -> bool {
    w.iter().take(zeros).all(|word| *word == 0) && is_left_from(w, slice, zeros)
}

// How many words of a working slice are zero after a call: none after 7.
fn zeros_after(v: Verdict) -> usize {
    match v {
        Verdict::Refused(Refusal::Working) => 0,
        _ => model::WORKING_WORDS,
    }
}

// Says that a slice is wrong. Where a write fails, the next piece is written all the same.
fn print_wrong<W: Write, D: Display>(out: &mut W, slice: &D) {
    let _ = out.write_all(b"slices,wrong,");
    let _ = write!(out, "{slice}");
    let _ = out.write_all(b"\n");
}

impl Lent<'_> {
    // Prints whether the slices came back from a call as the documents say: the working slices cleared, unless they were too
    // short, and the result slice as it was from a place on. Where a write fails, the next line is written all the same.
    pub fn print<W: Write>(&self, out: &mut W, v: Verdict, kept: usize) {
        let zeros = zeros_after(v);
        let work = [self.w0, self.w1, self.w2, self.w3, self.w4, self.w5];
        let mut good = true;
        for (i, w) in work.iter().enumerate() {
            if !is_left(w, i, zeros) {
                print_wrong(out, &i);
                good = false;
            }
        }
        if !is_left_from(self.result, 6, kept) {
            print_wrong(out, &"result");
            good = false;
        }
        if good {
            let _ = out.write_all(b"slices,ok\n");
        }
    }
}
