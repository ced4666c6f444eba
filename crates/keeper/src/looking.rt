// Looking at an entry where it stands, never a copy.
ghost use Rattle.std.specs.Prelude.{◌≡◌, [], IfOk};
ghost use Rattle.scope.specs.Keeper.{refusal_of, part_of};
ghost use Rattle.scope.specs.Refusals.{Look};
ghost use Rattle.scope.specs.Calls.{act};
ghost use Rattle.answer.specs.Answer.{number_in};
ghost use Rattle.keeper.specs.Answers.{handed};

use crate::State;
use answer::Refusal;
use medium::layout::row_at;

impl State {
    // Look: entry n's 32 bytes, a part of the medium when n <= f, else of the waiting rows. Refuses 1, 10, 11. Costs no byte.
    #[inline(always)]
    pub fn try_look<'a>(
        self,
        n: u32,
        medium: &'a [u8],
        waiting: &'a [u8],
    ) -> Result<&'a [u8], Refusal>
        ensures number { number_in result ≡ refusal_of (act (Look n) (handed self medium.now [] [] [] waiting.now)).answer }
        ensures part { IfOk result (λ part. part.now ≡ part_of (act (Look n) (handed self medium.now [] [] [] waiting.now)).answer) }
    {
        let State { numbers, phase } = self;
        refusal::look(numbers, phase, n, medium, waiting)?;
        let row = row_at(numbers.slots, n);
        if n <= numbers.f {
            let at = 32 + row;
            return Ok(&medium[at..at + 32]);
        }
        Ok(&waiting[row..row + 32])
    }

    // The same; of an entry that is refused, an empty part.
    pub fn look<'a>(self, n: u32, medium: &'a [u8], waiting: &'a [u8]) -> &'a [u8]
        ensures { result.now ≡ part_of (act (Look n) (handed self medium.now [] [] [] waiting.now)).answer }
    {
        let Ok(part) = self.try_look(n, medium, waiting) else {
            return &medium[0..0];
        };
        part
    }
}
