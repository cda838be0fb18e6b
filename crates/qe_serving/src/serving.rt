//! A command served: what is refused before all else, and each command by its own part.

ghost use Rattle.std.specs.Prelude.{◌≡◌, ◌≤◌, ◌<◌, ◌-◌, ◌^◌, length, IfOk, OnErr};
ghost use Rattle.qe_command.specs.Nonces.{nonces_of};
ghost use Rattle.qe_command_fits.specs.Sizes.{IsSized};
ghost use Rattle.qe_serving.specs.Serving.{state_in, IsServed, IsNext, AddsOne};

use crate::collections::Collections;
use crate::made::Made;
use qe_base::NoMemory;
use qe_protocol::Command;
use qe_refusal::refusal;

impl Collections {
    // Serves a command that isn't refused before all else.
    fn serve(&mut self, command: &Command, nonces: &[[u8; 16]]) -> Result<Made, NoMemory>
        requires sized { IsSized command.now }
        requires nonces { length nonces.now ≡ nonces_of command.now }
        requires last { self.old.upkeep.last < 2 ^ 63 - 1 }
        requires made { self.old.store.made < 2 ^ 63 }
        ensures ok { IfOk result (IsServed (state_in self.old) (state_in self.new) command.now nonces.now) }
        ensures err { OnErr result (state_in self.new ≡ state_in self.old) }
        ensures made { AddsOne self.old self.new }
        ensures kept { OnErr result (self.new.store.made ≡ self.old.store.made) }
    {
        match command {
            Command::Insert { id, cells } => self.insert(id, cells, nonces),
            Command::Find { filter, ids } => self.find(filter, *ids),
            Command::Update { filter, set } => self.update(filter, set, nonces),
            Command::Delete { filter } => self.delete(filter),
            Command::Begin { kind, tokens } => self.begin(*kind, tokens),
            Command::Step { job, limit } => self.step(*job, *limit, nonces),
            Command::End { job } => Ok(self.end(*job)),
            Command::Abandon { job } => Ok(self.abandon(*job)),
            Command::Raise { field, contention } => Ok(self.raise(*field, *contention)),
        }
    }

    /// Carries a command out.
    pub fn run(&mut self, command: &Command, nonces: &[[u8; 16]]) -> Result<Made, NoMemory>
        requires sized { IsSized command.now }
        requires nonces { length nonces.now ≡ nonces_of command.now }
        requires last { self.old.upkeep.last < 2 ^ 63 - 1 }
        requires made { self.old.store.made < 2 ^ 63 }
        ensures ok { IfOk result (IsNext (state_in self.old) (state_in self.new) command.now nonces.now) }
        ensures err { OnErr result (state_in self.new ≡ state_in self.old) }
        ensures made { AddsOne self.old self.new }
        ensures kept { OnErr result (self.new.store.made ≡ self.old.store.made) }
    {
        match refusal(self.current.as_slice(), command) {
            Some(reply) => Ok(Made::replied(self.alloc, reply)),
            None => self.serve(command, nonces),
        }
    }
}
