#![tactic(auto)]

ghost use Rattle.std.specs.Prelude.{ℕ, ◌≤◌, ◌<◌, ◌≡◌, true, false, List, length, get_or};
ghost use Rattle.model.specs.Lists.{part};
ghost use Rattle.model.specs.Reading.{most_names, most_records};
ghost use Rattle.model.specs.Outcome.{working_words};
ghost use Rattle.records.specs.Columns.{macro_at, ask_room};
ghost use Rattle.macros.specs.Macros.{opens_at};
ghost use Rattle.firing.specs.Met.{mark, marks};
ghost use Rattle.firing.specs.Firing.{entry_met, fires_in};
ghost use Rattle.firing.specs.Tables.{retained, record_meets, starts_at, IsLaid};

pub mod tables;

use model::Asked;
use tables::RecordTables;

// The columns of a run's slice, for both engines: by name, from word 0 on, where it is met; by record, from here on, where it
// is reached.
pub const REACHED: usize = 2048;

// Meets a name in a round, unless it was met before.
#[tactic(auto, using(crate::proofs::Meets::mark_set, crate::proofs::Meets::mark_stay))]
pub fn meet(run: &mut [u32], n: usize, round: usize)
    requires { (n < length run.old) × (round < 4294967296) }
    ensures { run.new ≡ mark round run.old n }
{
    if words::at(run, n) == 0 {
        run[n] = round as u32;
    }
}

// Meets the names of a part of the uses.
#[tactic(auto, using(crate::proofs::Meets::meet_next, crate::proofs::Meets::meet_end))]
fn meet_part(lists: &[u32], run: &mut [u32], a: usize, e: usize, round: usize)
    requires { (a ≤ e) × (e ≤ length lists.now) × ((i : ℕ) → a ≤ i → i < e → get_or lists.now i 0 < length run.old)
        × (round < 4294967296) }
    ensures { run.new ≡ marks round run.old (part lists.now a e) }
{
    for i in a..e {
        meet(run, words::at(lists, i), round);
    }
}

impl RecordTables<'_> {
    // Meets what a name opens to, one level.
    #[tactic(auto, using(crate::proofs::Meets::open_none, crate::proofs::Meets::open_record, crate::proofs::Meets::open_name))]
    fn open_macro(&self, run: &mut [u32], n: usize, round: usize)
        requires { IsLaid self.now × (n < self.now.k.names) × (most_names ≤ length run.old) × (round < 4294967296) }
        ensures { run.new ≡ marks round run.old
            (opens_at self.now.recs.now self.now.lists.now (macro_at self.now.names.now n)) }
    {
        let word = words::at(self.names, records::MACRO + n);
        if word == 0 {
            return;
        }
        if word < macros::OPENED {
            let a = words::at(self.recs, records::USES_START + (word - 1));
            let e = words::at(self.recs, records::USES_END + (word - 1));
            meet_part(self.lists, run, a, e, round);
            return;
        }
        meet(run, word - macros::OPENED, round);
    }

    // Meets the free names of a record, and what they open to.
    #[tactic(auto, using(crate::proofs::Meets::all_end, crate::proofs::Meets::uses_met))]
    pub fn meet_record(&self, run: &mut [u32], i: usize, round: usize)
        requires { IsLaid self.now × (i < self.now.k.records) × (most_names ≤ length run.old) × (round < 4294967296) }
        ensures { run.new ≡ marks round run.old (record_meets self.now.names.now self.now.recs.now self.now.lists.now i) }
    {
        let a = words::at(self.recs, records::USES_START + i);
        let e = words::at(self.recs, records::USES_END + i);
        for j in a..e {
            let n = words::at(self.lists, j);
            meet(run, n, round);
            self.open_macro(run, n, round);
        }
    }
}

// The place after the disjunct that the entry at `i` is in.
fn past(lists: &[u32], i: usize, e: usize) -> usize
    requires { (i ≤ e) × (e ≤ length lists.now) }
    ensures { (i ≤ result) × (result ≤ e) × ((w : List ℕ) → fires_in w false (part lists.now i e)
        ≡ fires_in w true (part lists.now result e)) }
{
    for j in i..e {
        if triggers::LAST <= words::at(lists, j) {
            return j + 1;
        }
    }
    e
}

// Whether the name of an entry is met, or it has none.
#[tactic(auto, using(crate::proofs::Firing::entry_none, crate::proofs::Firing::entry_some))]
fn entry_met(run: &[u32], x: usize) -> bool
    requires { most_names ≤ length run.now }
    ensures { result ≡ entry_met run.now x }
{
    let n = x % triggers::LAST;
    if triggers::NO_NAME <= n {
        return true;
    }
    words::at(run, n) != 0
}

// Whether a disjunct of the entries from `a` up to `e` is wholly met: each is given up at its first name that is not.
pub fn fires(lists: &[u32], run: &[u32], a: usize, e: usize) -> bool
    requires { (a ≤ e) × (e ≤ length lists.now) × (most_names ≤ length run.now) }
    ensures { result ≡ fires_in run.now true (part lists.now a e) }
{
    let mut i = a;
    // Nested loops with a label, as document 01 has them for firing.
    'disjuncts: loop {
        // A `for` cannot go over these entries: `past` moves `i` on, over the rest of a disjunct that is given up.
        while i < e {
            let x = words::at(lists, i);
            i += 1;
            if !entry_met(run, x) {
                if x < triggers::LAST {
                    i = past(lists, i, e);
                }
                continue 'disjuncts;
            }
            if triggers::LAST <= x {
                break 'disjuncts true;
            }
        }
        break 'disjuncts false;
    }
}

// Whether a record is retainable: its flag is 0, or option 2 is on.
#[tactic(auto, using(crate::proofs::Asked::flag_off, crate::proofs::Asked::flag_on))]
pub fn retained(recs: &[u32], a: Asked, i: usize) -> bool
    requires { (i < most_records) × (working_words ≤ length recs.now) }
    ensures { result ≡ retained recs.now a i }
{
    if words::at(recs, records::FLAG + i) != 1 {
        return true;
    }
    let options = options::options_of(a.options);
    options.pretyping_axioms
}

// Whether an engine starts with a record: a root of the ask's queries or, without option 1, an ambient root that the ask
// admits.
#[tactic(auto, using(crate::proofs::Asked::starts_root, crate::proofs::Asked::starts_no, crate::proofs::Asked::starts_apart, crate::proofs::Asked::starts_ambient))]
pub fn starts(recs: &[u32], a: Asked, i: usize) -> bool
    requires { (i < most_records) × (a.end ≤ ask_room) × (working_words ≤ length recs.now) }
    ensures { result ≡ starts_at recs.now a i }
{
    let kind = words::at(recs, records::KIND + i);
    if kind == records::ROOT {
        return records::asks_for(recs, a, words::at(recs, records::FLAG + i));
    }
    if words::at(recs, records::SUMMARY + i) != records::AMBIENT_ROOT {
        return false;
    }
    if !records::takes_part(recs, a, i) {
        return false;
    }
    let options = options::options_of(a.options);
    !options.no_ambients
}
