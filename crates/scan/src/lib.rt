#![tactic(auto)]

ghost use Rattle.std.specs.Prelude.{◌+◌, ◌*◌, ◌≤◌, ◌<◌, ◌≡◌, true, false, length};
ghost use Rattle.model.specs.Reading.{most_records, most_entries};
ghost use Rattle.model.specs.Outcome.{working_words};
ghost use Rattle.records.specs.Columns.{ask_room};
ghost use Rattle.records.specs.States.{ask_of};
ghost use Rattle.firing.specs.Held.{waiting};
ghost use Rattle.firing.specs.Tables.{held_in, IsFilled, IsLaid, starts_at};
ghost use Rattle.scan.specs.Steps.{Goes, going, visit, visits_of, visit_phase, met_phase, round, Rounds, Steady, Ready, work_room};
ghost use Rattle.firing.specs.Met.{work_column, run_end, zeroed_to};
ghost use Rattle.scan.specs.Starts.{first_scan, pushed};
ghost use Rattle.scan.specs.Runs.{Ran};
ghost use Rattle.scan.specs.Chains.{before_last, ChainStands, WentOn};

use firing::tables::RecordTables;
use model::Asked;

// The worklist, behind the columns of the run's slice: by name the round first met, by record the round reached. Along a chain
// the rounds are counted on.
const WORK: usize = 3072;

// The options number of option 1 alone: an ask with no ambient roots.
const NO_AMBIENTS: usize = 1;

// The state of a run, or of a chain of stretches: the part of the worklist that the next round scans, the visits and the rounds
// so far, and whether the last round triggered a fact.
#[derive(Clone, Copy)]
pub struct Scan {
    pub from: usize,
    pub to: usize,
    pub visits: usize,
    pub rounds: usize,
    pub triggered: bool,
}

impl Scan {
    // Clears the columns of a run: nothing is met or reached.
    #[tactic(auto, using(firing::proofs::Clearing::zeroed_is))]
    fn start(run: &mut [u32]) -> Scan
        requires { run_end ≤ length run.old }
        ensures { going result run.new ≡ going first_scan (zeroed_to work_column run.old) }
    {
        words::clear(run, 0, WORK);
        Scan {
            from: 0,
            to: 0,
            visits: 0,
            rounds: 0,
            triggered: false,
        }
    }

    // Puts the records that the first round scans behind the worklist.
    #[tactic(auto, using(crate::proofs::Starting::add_start))]
    fn add_roots(self, tables: &RecordTables, run: &mut [u32], a: Asked) -> Scan
        requires { (tables.now.k.records ≤ most_records) × (a.end ≤ ask_room)
            × (working_words ≤ length tables.now.recs.now) × (run_end ≤ length run.old)
            × (self.to + tables.now.k.records ≤ work_room) }
        ensures { going result run.new ≡ pushed (starts_at tables.now.recs.now a) tables.now.k.records (going self run.old) }
    {
        let mut to = self.to;
        for i in 0..tables.k.records {
            if !firing::starts(tables.recs, a, i) {
                continue;
            }
            run[WORK + to] = i as u32;
            to += 1;
        }
        Scan { to, ..self }
    }

    // Visits an entry: a fact that fires is triggered, and reached if it is retainable and was not reached.
    #[tactic(auto, using(crate::proofs::Visiting::visit_quiet, crate::proofs::Visiting::visit_dropped, crate::proofs::Visiting::visit_again, crate::proofs::Visiting::visit_new))]
    fn visit(self, tables: &RecordTables, run: &mut [u32], a: Asked, e: usize) -> Scan
        requires { IsLaid tables.now × Steady (going self run.old) × (e < tables.now.k.entries) }
        ensures { Goes tables.now a (λ h g. visit h g e) self run.old result run.new }
    {
        let i = words::at(tables.lists, records::FACT + e);
        let start = triggers::ENTRIES + words::at(tables.recs, records::ENTRIES_START + i);
        let end = triggers::ENTRIES + words::at(tables.recs, records::ENTRIES_END + i);
        let to = self.to;
        let mut fired = self;
        fired.visits = self.visits + 1;
        if !firing::fires(tables.lists, run, start, end) {
            return fired;
        }
        fired.triggered = true;
        if !firing::retained(tables.recs, a, i) {
            return fired;
        }
        if words::at(run, firing::REACHED + i) != 0 {
            return fired;
        }
        run[firing::REACHED + i] = self.rounds as u32;
        run[WORK + to] = i as u32;
        fired.to = to + 1;
        fired
    }

    // Visits the entries that wait on a name, newest first; those of facts that the ask does not admit are passed over.
    #[tactic(auto, using(crate::proofs::Chaining::chain_end))]
    fn visit_chain(self, tables: &RecordTables, run: &mut [u32], a: Asked, n: usize) -> Scan
        requires { IsLaid tables.now × Steady (going self run.old) × (self.visits ≤ 2 * most_entries) × (n < tables.now.k.names) }
        ensures { Goes tables.now a (λ h g. visits_of h g (waiting h n tables.now.k.entries)) self run.old result run.new }
    {
        let mut s = self;
        let mut next = words::at(tables.names, records::FIRST + n);
        // The entries are a chain through the lists, not a range: each says which comes next, and there is no iterator over
        // them.
        while next != 0 {
            let e = next - 1;
            next = words::at(tables.lists, records::NEXT + e);
            if !records::takes_part(tables.recs, a, words::at(tables.lists, records::FACT + e)) {
                continue;
            }
            s = s.visit(tables, run, a, e);
        }
        s
    }

    // Visits the entries of the names first met in this round.
    fn visit_new(self, tables: &RecordTables, run: &mut [u32], a: Asked) -> Scan
        requires { IsLaid tables.now × Steady (going self run.old) × (self.visits ≤ most_entries) }
        ensures { Goes tables.now a visit_phase self run.old result run.new }
    {
        let round = self.rounds;
        let mut s = self;
        for n in 0..tables.k.names {
            if words::at(run, n) != round {
                continue;
            }
            s = s.visit_chain(tables, run, a, n);
        }
        s
    }

    // Meets all that the next round scans, whatever the ask.
    #[tactic(auto, using(crate::proofs::Phases::scan_item, crate::proofs::Phases::scan_end))]
    fn meet_items(self, tables: &RecordTables, run: &mut [u32]) -> Scan
        requires { IsLaid tables.now × ((a : Asked) × Ready (held_in tables.now a) (going self run.old)) }
        ensures { (a : Asked) → Goes tables.now a met_phase self run.old result run.new }
    {
        let from = self.from;
        let to = self.to;
        let round = self.rounds + 1;
        for j in from..to {
            let i = words::at(run, WORK + j);
            tables.meet_record(run, i, round);
        }
        Scan {
            from: to,
            to,
            visits: self.visits,
            rounds: round,
            triggered: false,
        }
    }

    // A round: all that it scans is met, then the entries of the names first met in it are visited.
    #[tactic(auto, using(crate::proofs::Phases::round_is))]
    fn round(self, tables: &RecordTables, run: &mut [u32], a: Asked) -> Scan
        requires { IsLaid tables.now × Ready (held_in tables.now a) (going self run.old) }
        ensures { Goes tables.now a round self run.old result run.new }
    {
        let met = self.meet_items(tables, run);
        met.visit_new(tables, run, a)
    }

    // Round after round, to the one that triggers no fact.
    fn go_on(self, tables: &RecordTables, run: &mut [u32], a: Asked) -> Scan
        requires { IsLaid tables.now × Ready (held_in tables.now a) (going self run.old) }
        ensures { Rounds (held_in tables.now a) (going self run.old) (going result run.new) }
    {
        let mut s = self;
        // The last round is known once it triggers no fact, so no range counts them.
        loop {
            s = s.round(tables, run, a);
            if !s.triggered {
                return s;
            }
        }
    }
}

// Runs an ask over the tables that the reader filled.
pub fn run_ask(file: &[u8], tables: &RecordTables, run: &mut [u32], a: Asked) -> Scan
    requires { IsFilled file.now tables.now × (a.end ≤ ask_room) × (run_end ≤ length run.old) }
    ensures { Ran file.now tables.now.names.now tables.now.recs.now tables.now.lists.now tables.now.k a run.old run.new result }
{
    let begun = Scan::start(run);
    let rooted = begun.add_roots(tables, run, a);
    rooted.go_on(tables, run, a)
}

// Goes on from the finished run of an ask without its last query, with the roots of that query and no ambient roots.
pub fn run_also(file: &[u8], tables: &RecordTables, run: &mut [u32], a: Asked, before: Scan) -> Scan
    requires { IsFilled file.now tables.now × (a.end ≤ ask_room) × (a.first + 1 < a.end)
        × ChainStands file.now tables.now.names.now tables.now.recs.now tables.now.lists.now tables.now.k
        (ask_of tables.now.recs.now (before_last a)) run.old before }
    ensures { WentOn file.now tables.now.names.now tables.now.recs.now tables.now.lists.now tables.now.k a
        run.old before run.new result }
{
    let end = a.end;
    let last = Asked {
        first: end - 1,
        end,
        options: NO_AMBIENTS,
        groups: a.groups,
    };
    let rested = Scan {
        from: 0,
        to: 0,
        ..before
    };
    let rooted = rested.add_roots(tables, run, last);
    rooted.go_on(tables, run, a)
}
