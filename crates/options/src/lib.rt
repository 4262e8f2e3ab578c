#![tactic(auto)]

ghost use Rattle.std.specs.Prelude.{ℕ, ◌≤◌, ◌≡◌, List};
ghost use Rattle.model.specs.Reading.{most_options};
ghost use Rattle.model.specs.Rounds.{admits};
ghost use Rattle.options.specs.OptionsOf.{asks, options_value, OptionsOf};

// The options of an ask: 1, `no_ambients`; 2, `pretyping_axioms`; 4, `prune_decls`; 8, the bodies of kept definitions followed.
#[derive(Clone, Copy)]
pub struct Options {
    pub no_ambients: bool,
    pub pretyping_axioms: bool,
    pub prune_decls: bool,
    pub follow_bodies: bool,
}

// The options of an options number: what remains by 2 after the halvings of each one's place.
pub fn options_of(number: usize) -> Options
    ensures on { (qs : List ℕ) (gs : ℕ) → OptionsOf (asks qs number gs) result }
    ensures sum { number ≤ most_options → options_value result ≡ number }
{
    Options {
        no_ambients: number % 2 == 1,
        pretyping_axioms: number / 2 % 2 == 1,
        prune_decls: number / 4 % 2 == 1,
        follow_bodies: number / 8 % 2 == 1,
    }
}

// Whether a number of groups admits a group: what remains by 2 after so many halvings.
pub fn admits(groups: usize, group: usize) -> bool
    ensures { (qs : List ℕ) (os : ℕ) → result ≡ admits (asks qs os groups) group }
{
    let mut left = groups;
    for _ in 0..group {
        left = left / 2;
    }
    left % 2 == 1
}
