// The releases that were met, in the order met.
ghost use Rattle.std.specs.Prelude.{◌≤◌};

use crate::Met;

// So many releases have counts of their own.
const MOST_RELEASES: usize = 64;

// The releases met, each with how many cells have it; clauses see these as the list `in_use`.
#[derive(Clone, Copy)]
pub struct Releases {
    places: [Met; MOST_RELEASES],
    used: usize,
    pub ghost few: { used ≤ 64 },
}

impl Releases {
    ghost use Rattle.std.specs.Prelude.{◌≡◌, ◌==◌, ◌<◌, ◌≤◌, ◌∷◌, [], ◌++◌, length, set};
    ghost use Rattle.months.specs.Releases.{in_use};

    // None.
    pub fn new() -> Self
        ensures { in_use result ≡ [] }
    {
        Releases {
            places: [Met {
                release: 0,
                count: 0,
            }; MOST_RELEASES],
            used: 0,
        }
    }

    // Those that were met.
    pub fn as_slice(&self) -> &[Met]
        ensures value { result.now ≡ in_use self.now }
        ensures upper_bound { length result.now ≤ 64 }
    {
        &self.places[..self.used]
    }

    // Whether no other one can have a count.
    pub fn is_full(&self) -> bool
        ensures value { result ≡ (length (in_use self.now) == 64) }
        ensures upper_bound { length (in_use self.now) ≤ 64 }
    {
        self.used == MOST_RELEASES
    }

    // One more, behind the others.
    pub fn push(&mut self, met: Met)
        requires { length (in_use self.old) < 64 }
        ensures { in_use self.new ≡ in_use self.old ++ met ∷ [] }
    {
        self.places[self.used] = met;
        self.used += 1;
    }

    // Another one, or another count, in a place that is in use.
    #[tactic(auto, using(crate::proofs::Adding::set_in_use))]
    pub fn replace(&mut self, place: usize, met: Met)
        requires { place < length (in_use self.old) }
        ensures { in_use self.new ≡ set (in_use self.old) place met }
    {
        self.places[place] = met;
    }
}
