// What calls are lent: the medium's image and the workspaces.
ghost use Rattle.keeper.specs.Answers.{handed};
ghost use Rattle.console.specs.Made.{call_of, Made};

use console::{Call, Did};
use keeper::State;

#[derive(Drop)]
pub struct Desk<'a> {
    pub medium: &'a mut [u8],
    pub current: &'a mut [u64],
    pub first: &'a mut [u32],
    pub last: &'a mut [u32],
    pub waiting: &'a mut [u8],
}

impl Desk<'_> {
    // The call, made on them.
    pub fn make(&mut self, state: State, call: Call) -> Did
        ensures { let before = handed state self.old.medium.now self.old.current.now self.old.first.now self.old.last.now self.old.waiting.now in
            let after = handed result.state self.new.medium.now self.new.current.now self.new.first.now self.new.last.now self.new.waiting.now in
            Made (call_of call) before result after }
    {
        console::make(
            state,
            call,
            self.medium,
            self.current,
            self.first,
            self.last,
            self.waiting,
        )
    }
}
