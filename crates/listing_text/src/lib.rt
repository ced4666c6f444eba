// The listing of a medium as text: recovery by the library's own calls in the caller's memory, then `cells`, `slots`, `head` and the cells
// that are not empty; or the refusal's number.
#![tactic(auto)]

ghost use Rattle.std.specs.Prelude.{◌≡◌};
ghost use Rattle.recovered.specs.Recovered.{recovered};
ghost use Rattle.listing_text.specs.Listing.{listing, outcome_text, OnMedium};

use answer::Refusal;
use recovered::{Recovered, recover};
use text::Text;

// The table on the medium that a recovery left, or the refusal's number.
#[tactic(auto, using(text::proofs::Writing::length_line_32))]
fn text_of(medium: &[u8], outcome: Result<Recovered, Refusal>) -> Text<65536>
    requires { OnMedium outcome medium.now }
    ensures { result ≡ outcome_text outcome medium.now }
{
    let mut text = Text::new();
    match outcome {
        Ok(Recovered { numbers, .. }) => {
            text.put_table(medium, numbers.cells, numbers.slots, numbers.h);
        }
        Err(refusal) => text.put_line(b"refused=", u64::from(refusal.number())),
    }
    text
}

// The listing of the medium, which is recovered where it stands. Goes over the table once for each cell that recovery stores.
pub fn listing(medium: &mut [u8]) -> Text<65536>
    ensures text { result ≡ listing medium.old }
    ensures medium_after { medium.new ≡ (recovered medium.old).medium }
{
    let outcome = recover(medium);
    text_of(medium, outcome)
}
