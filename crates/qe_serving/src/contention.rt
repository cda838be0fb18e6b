//! Each field's current contention, raised.

ghost use Rattle.std.specs.Prelude.{[]};
ghost use Rattle.qe_command.specs.declared.command.Command.TheVariants.{Raise};
ghost use Rattle.qe_serving.specs.Serving.{state_in, IsServed, AddsOne};

use crate::collections::Collections;
use crate::made::Made;
use qe_protocol::Reply;
use qe_refusal::current_of;

impl Collections {
    /// Raises a field's contention, where that asked for is above the current one. It takes no memory.
    pub(crate) fn raise(&mut self, field: u32, contention: u64) -> Made
        ensures raised { IsServed (state_in self.old) (state_in self.new) (Raise field contention) [] result }
        ensures made { AddsOne self.old self.new }
    {
        let current = current_of(self.current.as_slice(), field);
        if contention <= current {
            let reply = Reply::NotRaised {
                asked: contention,
                current,
            };
            return Made::replied(self.alloc, reply);
        }
        if let Some(number) = self.current.get_mut(field as usize) {
            *number = contention;
        }
        Made::replied(self.alloc, Reply::Raised(contention))
    }
}
