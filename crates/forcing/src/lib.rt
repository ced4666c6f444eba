// Entries on their way to the medium: commit's first step, which makes its entry and stores nothing, and force's, which stores one row.
// A commit is its first step, then force's until f = l.
#![tactic(auto)]

ghost use Rattle.std.specs.Prelude.{◌≡◌, List, [], ℕ, ◌-◌, ◌<◌};
ghost use Rattle.scope.specs.Calls.{commit_made, forced, forced_by};
ghost use Rattle.state.specs.declared.Phase.{Phase};
ghost use Rattle.state.specs.declared.Phase.TheVariants.{Idle};
ghost use Rattle.state.specs.Lent.{lent_to};
ghost use Rattle.journal.specs.Entries.{Rows};
ghost use Rattle.forcing.specs.Storing.{Storing};

use row::Entry;
use state::Numbers;

// Commit's first step: entry l + 1, a commit, is built in its waiting row, and the transaction is closed. Costs one row.
#[inline(always)]
pub fn make_commit(numbers: Numbers, waiting: &mut [u8]) -> Numbers
    requires { (Rows waiting.old 0 numbers.slots 1) × (numbers.l < 4294967295) }
    ensures { let before = waiting.old in
        let after = waiting.new in
        ((p : Phase) (m : List ℕ) → lent_to result Idle m [] [] [] after ≡ commit_made (lent_to numbers p m [] [] [] before)) }
{
    let n = numbers.l + 1;
    journal::append(waiting, numbers.slots, n, Entry::Commit);
    Numbers {
        l: n,
        o: n,
        ..numbers
    }
}

// Force's one-store step: entry f + 1 is stored from its waiting row. Costs one row; stores that row.
#[inline(always)]
pub fn force_step(numbers: Numbers, medium: &mut [u8], waiting: &[u8]) -> Numbers
    requires { (Storing numbers medium.old waiting.now) × (numbers.f < numbers.l) }
    ensures { let before = medium.old in
        let after = medium.new in
        let w = waiting.now in
        ((p : Phase) → lent_to result p after [] [] [] w ≡ forced (lent_to numbers p before [] [] [] w)) }
{
    let n = numbers.f + 1;
    journal::store_row(medium, waiting, numbers.slots, n);
    Numbers { f: n, ..numbers }
}

// Force's steps until f = l. Costs the rows that are not stored, once; stores each of them, in rising order.
#[inline(always)]
pub fn force_all(numbers: Numbers, medium: &mut [u8], waiting: &[u8]) -> Numbers
    requires { Storing numbers medium.old waiting.now }
    ensures { let before = medium.old in
        let after = medium.new in
        let w = waiting.now in
        ((p : Phase) → lent_to result p after [] [] [] w ≡ forced_by (numbers.l - numbers.f) (lent_to numbers p before [] [] [] w)) }
{
    let mut next = numbers;
    while next.f < next.l {
        next = force_step(next, medium, waiting);
    }
    next
}
