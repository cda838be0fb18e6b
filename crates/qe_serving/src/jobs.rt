//! Jobs of maintenance: begun, run step by step, ended, abandoned.

ghost use Rattle.std.specs.Prelude.{◌≡◌, ◌-◌, ◌^◌, ◌<◌, [], IfOk, IfSome, IfNone, OnErr};
ghost use Rattle.qe_command.specs.declared.command.Command.TheVariants.{Begin, Step, End, Abandon};
ghost use Rattle.qe_serving.specs.Serving.{state_in, IsServed, AddsOne, IsOff, RunsAsked};

use crate::collections::Collections;
use crate::made::Made;
use qe_base::{Counts, JobKind, NoMemory, Numbers};
use qe_compact::{BeginFault, StepFault};
use qe_protocol::Reply;
use qe_tokens::TokenList;

impl Collections {
    /// Begins a job, where none runs and each row that would be aside has a token.
    pub(crate) fn begin(&mut self, kind: JobKind, tokens: &TokenList) -> Result<Made, NoMemory>
        requires { self.old.upkeep.last < 2 ^ 63 - 1 }
        ensures ok { IfOk result (IsServed (state_in self.old) (state_in self.new) (Begin kind tokens.now) []) }
        ensures err { OnErr result (state_in self.new ≡ state_in self.old) }
        ensures made { AddsOne self.old self.new }
        ensures kept { OnErr result (self.new.store.made ≡ self.old.store.made) }
    {
        let reply = match self.upkeep.begin(&self.esc, &mut self.ecoc, kind, tokens) {
            Ok(job) => Reply::Begun(job),
            Err(BeginFault::JobRunning(job)) => Reply::JobRunning(job),
            Err(BeginFault::TokenMissing(field)) => Reply::TokenMissing(field),
            Err(BeginFault::NoMemory) => return Err(NoMemory),
        };
        Ok(Made::replied(self.alloc, reply))
    }

    // What is answered where another job runs than the one asked for, or none.
    fn off_job(&self, asked: u64) -> Option<Reply>
        ensures some { IfSome result (IsOff (state_in self.now) asked) }
        ensures none { IfNone result (RunsAsked asked self.now.upkeep.job) }
    {
        match self.upkeep.running() {
            None => Some(Reply::NoJob { asked, running: 0 }),
            Some((number, _)) if number == asked => None,
            Some((running, _)) => Some(Reply::NoJob { asked, running }),
        }
    }

    /// Does units of the job that runs, one for each nonce.
    pub(crate) fn step(
        &mut self,
        job: u64,
        limit: u32,
        nonces: &[[u8; 16]],
    ) -> Result<Made, NoMemory>
        ensures ok { IfOk result (IsServed (state_in self.old) (state_in self.new) (Step job limit) nonces.now) }
        ensures err { OnErr result (state_in self.new ≡ state_in self.old) }
        ensures made { AddsOne self.old self.new }
        ensures kept { OnErr result (self.new.store.made ≡ self.old.store.made) }
    {
        if let Some(reply) = self.off_job(job) {
            return Ok(Made::replied(self.alloc, reply));
        }
        let mut counts = Counts::new(self.alloc);
        let mut opened = Numbers::new(self.alloc);
        let reply = match self
            .upkeep
            .step(&mut self.esc, nonces, &mut counts, &mut opened)
        {
            Ok(left) => Reply::Stepped(left),
            Err(StepFault::TokenMismatch(field)) => Reply::TokenMismatch(field),
            Err(StepFault::NoMemory) => return Err(NoMemory),
        };
        Ok(Made {
            reply,
            counts,
            opened,
        })
    }

    /// Ends the job that runs, where nothing is left. It takes no memory.
    pub(crate) fn end(&mut self, job: u64) -> Made
        ensures ended { IsServed (state_in self.old) (state_in self.new) (End job) [] result }
        ensures made { AddsOne self.old self.new }
    {
        let reply = match self.off_job(job) {
            Some(reply) => reply,
            None => match self.upkeep.end() {
                Ok(leaves) => Reply::Ended(leaves),
                Err(left) => Reply::NotDone(left),
            },
        };
        Made::replied(self.alloc, reply)
    }

    /// Abandons the job that runs, whatever is left. It takes no memory.
    pub(crate) fn abandon(&mut self, job: u64) -> Made
        ensures abandoned { IsServed (state_in self.old) (state_in self.new) (Abandon job) [] result }
        ensures made { AddsOne self.old self.new }
    {
        if let Some(reply) = self.off_job(job) {
            return Made::replied(self.alloc, reply);
        }
        self.upkeep.abandon();
        Made::replied(self.alloc, Reply::Abandoned)
    }
}
