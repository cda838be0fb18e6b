//! The jobs, and the lists that they work through.

ghost use Rattle.std.specs.Prelude.{◌≡◌, ◌^◌, ◌<◌, ◌-◌, IfOk, IfErr, OnErr, OnOk, IsSome, None, []};
ghost use Rattle.qe_esc.specs.Changes.{changed};
ghost use Rattle.qe_protocol.specs.State.{left_of};
ghost use Rattle.qe_protocol.specs.Jobs.{first_missing};
ghost use Rattle.qe_protocol.specs.declared.reply.Reply.TheVariants as r;
ghost use Rattle.qe_compact.specs.Parts.{running_of, leaves_of, parked, rows_ahead, made_ready, kept};
ghost use Rattle.qe_compact.specs.Drafts.{IsWithin};
ghost use Rattle.qe_compact.specs.Answers.{Begins, BeginReplied, StepsAndNotes, StepReplied, IsUnchanged, OnWant, IsPlanned, Ends, Abandons};

use crate::begin::{missing_ahead, missing_in};
use crate::draft::{Draft, Plan, Planned, Standing, Taken};
use crate::fault::{BeginFault, StepFault};
use crate::job::Running;
use crate::queue::Queue;
use crate::unit::run;
use qe_base::{Counts, Duplicate, JobKind, NoMemory, Numbers};
use qe_ecoc::{Ecoc, Entry};
use qe_esc::Esc;
use qe_tokens::{FieldToken, TokenList};
use std::alloc::Global;
use std::marker::Model;

/// The work of maintenance: rows aside, identifiers that were captured or are doomed, and the job, if one runs.
/// Contracts see the jobs of the server's state.
#[derive(Drop)]
pub struct Upkeep {
    alloc: Global,
    aside: Queue<Entry>,
    captured: Queue<[u8; 32]>,
    doomed: Queue<[u8; 32]>,
    job: Option<Running>,
    leaves: u64,
    last: u64,
}

impl Model for Upkeep {
    ghost use Rattle.std.specs.Prelude.{◌+◌, ◌^◌, ◌<◌, length};
    ghost use Rattle.qe_protocol.specs.State.{Jobs};

    ghost Value = { Jobs };

    ghost use Rattle.qe_compact.specs.Parts.{job_of};

    ghost view = { λ u. record { aside = u.aside; captured = u.captured; doomed = u.doomed; job = job_of u.job u.leaves; last = u.last } };

    ghost invariant = { λ u. u.leaves + length u.aside < 2 ^ 63 };
}

impl Upkeep {
    /// No job, and nothing left to do.
    pub fn new(alloc: Global) -> Self
        ensures { result ≡ record { aside = []; captured = []; doomed = []; job = None; last = 0 } }
    {
        Upkeep {
            alloc,
            aside: Queue::new(Vec::new(alloc)),
            captured: Queue::new(Vec::new(alloc)),
            doomed: Queue::new(Vec::new(alloc)),
            job: None,
            leaves: 0,
            last: 0,
        }
    }

    /// The number and the kind of the job that runs. None where none does.
    pub fn running(&self) -> Option<(u64, JobKind)>
        ensures { result ≡ running_of self.now.job }
    {
        match &self.job {
            Some(job) => Some((job.number, job.kind)),
            None => None,
        }
    }

    /// The last job's number, 0 before the first.
    pub fn last(&self) -> u64
        ensures { result ≡ self.now.last }
    {
        self.last
    }

    /// The rows aside, in the order in which they are opened.
    pub fn aside(&self) -> &[Entry]
        ensures { result.now ≡ self.now.aside }
    {
        self.aside.slice()
    }

    /// The identifiers that were captured, in the order in which they are taken out.
    pub fn captured(&self) -> &[[u8; 32]]
        ensures { result.now ≡ self.now.captured }
    {
        self.captured.slice()
    }

    /// The identifiers of anchors that are doomed, in the order in which they are taken out.
    pub fn doomed(&self) -> &[[u8; 32]]
        ensures { result.now ≡ self.now.doomed }
    {
        self.doomed.slice()
    }

    /// How much is left: rows aside, and identifiers to take out.
    pub fn left(&self) -> u64
        ensures { result ≡ left_of self.now }
    {
        self.aside().len() as u64 + self.doomed().len() as u64 + self.captured().len() as u64
    }

    /// How many rows of leaves the job that runs has handled, 0 where none runs.
    pub fn leaves(&self) -> u64
        ensures { result ≡ leaves_of self.now.job }
    {
        match &self.job {
            Some(_) => self.leaves,
            None => 0,
        }
    }

    /// Begins a job. Where something is parked it is taken up as it is; else all rows for compaction go aside, and the
    /// identifiers of all rows without a value are captured. Answers the job's number.
    pub fn begin(
        &mut self,
        esc: &Esc,
        ecoc: &mut Ecoc,
        kind: JobKind,
        tokens: &TokenList,
    ) -> Result<u64, BeginFault>
        requires { self.old.last < 2 ^ 63 - 1 }
        ensures replied { BeginReplied result (λ reply. Begins kind tokens.now esc.now.rows ecoc.old.rows self.old ecoc.new.rows self.new reply) }
        ensures jobs { OnErr result (self.new ≡ self.old) }
        ensures rows { OnErr result (ecoc.new.rows ≡ ecoc.old.rows) }
    {
        if let Some(job) = self.running() {
            return Err(BeginFault::JobRunning(job.0));
        }
        if let Some(field) = self.missing(&*ecoc, tokens.slice()) {
            return Err(BeginFault::TokenMissing(field));
        }
        let tokens = tokens.copy()?;
        self.make_ready(esc, ecoc)?;
        self.last += 1;
        self.leaves = 0;
        self.job = Some(Running {
            number: self.last,
            kind,
            tokens,
        });
        Ok(self.last)
    }

    // The field of the first row without a token, of those that would be aside.
    fn missing(&self, ecoc: &Ecoc, tokens: &[FieldToken]) -> Option<u32>
        ensures { result ≡ first_missing tokens.now (rows_ahead self.now ecoc.now.rows) }
    {
        if self.left() == 0 {
            missing_ahead(tokens, ecoc)
        } else {
            missing_in(tokens, self.aside())
        }
    }

    // Sets aside what there is to do, unless something is parked.
    fn make_ready(&mut self, esc: &Esc, ecoc: &mut Ecoc) -> Result<(), NoMemory>
        requires { self.old.job ≡ None }
        ensures jobs { OnOk result (self.new ≡ (made_ready esc.now.rows ecoc.old.rows self.old).jobs) }
        ensures rows { OnOk result (ecoc.new.rows ≡ (made_ready esc.now.rows ecoc.old.rows self.old).ecoc) }
        ensures no_jobs { OnErr result (self.new ≡ self.old) }
        ensures no_rows { OnErr result (ecoc.new.rows ≡ ecoc.old.rows) }
    {
        if self.left() != 0 {
            return Ok(());
        }
        let captured = esc.positions()?;
        self.leaves = 0;
        self.aside = Queue::new(ecoc.rename_aside().into_vec());
        self.captured = Queue::new(captured.into_vec());
        Ok(())
    }

    /// Does a unit of the job that runs for each nonce, as long as something is left. Appends the count of each search to
    /// `counts`, and the field of each row that it opened to `opened`; both lists are copied for that. Answers how much is left.
    pub fn step(
        &mut self,
        esc: &mut Esc,
        nonces: &[[u8; 16]],
        counts: &mut Counts,
        opened: &mut Numbers,
    ) -> Result<u64, StepFault>
        requires { IsSome self.old.job }
        ensures replied { StepReplied result (λ reply. StepsAndNotes nonces.now esc.old.rows self.old esc.new.rows self.new counts.old counts.new opened.old opened.new reply) }
        ensures want { OnWant result (IsUnchanged esc.old.rows esc.new.rows self.old self.new counts.old counts.new opened.old opened.new) }
    {
        let Planned { draft, mismatch } = self.plan(&*esc, nonces, counts.copy()?, opened.copy()?)?;
        let Draft {
            plan,
            taken,
            counts: searched,
            opened: fields,
        } = draft;
        self.keep(esc, &plan, taken)?;
        *counts = searched;
        *opened = fields;
        match mismatch {
            Some(field) => {
                self.abandon();
                Err(StepFault::TokenMismatch(field))
            }
            None => Ok(self.left()),
        }
    }

    // Plans the units of a step.
    fn plan(
        &self,
        esc: &Esc,
        nonces: &[[u8; 16]],
        counts: Counts,
        opened: Numbers,
    ) -> Result<Planned, NoMemory>
        requires { IsSome self.now.job }
        ensures { IfOk result (λ planned. IsPlanned nonces.now esc.now.rows self.now counts opened planned) }
    {
        let Some(job) = &self.job else {
            unreachable!();
        };
        let standing = Standing {
            esc,
            upkeep: self,
            job,
        };
        let mut draft = Draft::new(self.alloc, self.leaves, counts, opened);
        let mismatch = run(&standing, &mut draft, nonces)?;
        Ok(Planned { draft, mismatch })
    }

    // Carries out what was planned, and takes what was taken.
    fn keep(&mut self, esc: &mut Esc, plan: &Plan, taken: Taken) -> Result<(), NoMemory>
        requires { IsWithin self.old plan.now taken }
        ensures rows { OnOk result (esc.new.rows ≡ changed esc.old.rows plan.now.changes) }
        ensures jobs { OnOk result (self.new ≡ kept self.old plan.now taken) }
        ensures no_rows { OnErr result (esc.new.rows ≡ esc.old.rows) }
        ensures no_jobs { OnErr result (self.new ≡ self.old) }
    {
        esc.reserve(plan.changes.len())?;
        self.doomed.extend(plan.doomed.slice())?;
        plan.changes.apply(esc);
        self.aside.drop_front(taken.rows);
        self.doomed.drop_front(taken.doomed);
        self.captured.drop_front(taken.captured);
        self.leaves = taken.leaves;
        Ok(())
    }

    /// Ends the job that runs, where nothing is left. Answers how many rows of leaves it handled, or else how much is left.
    /// It takes no memory.
    pub fn end(&mut self) -> Result<u64, u64>
        requires { IsSome self.old.job }
        ensures ended { IfOk result (λ leaves. Ends self.old self.new (r.Ended leaves)) }
        ensures not_done { IfErr result (λ left. Ends self.old self.new (r.NotDone left)) }
        ensures kept { OnErr result (self.new ≡ self.old) }
    {
        let left = self.left();
        if left != 0 {
            return Err(left);
        }
        let leaves = self.leaves();
        self.abandon();
        Ok(leaves)
    }

    /// Ends the job that runs, whatever is left, which is parked then. It takes no memory.
    pub fn abandon(&mut self)
        requires { IsSome self.old.job }
        ensures abandons { Abandons self.old self.new }
        ensures parked { self.new ≡ parked self.old }
    {
        self.job = None;
        self.leaves = 0;
    }
}

impl Duplicate for Upkeep {
    fn copy(&self) -> Result<Self, NoMemory> {
        Ok(Upkeep {
            alloc: self.alloc,
            aside: self.aside.copy(self.alloc)?,
            captured: self.captured.copy(self.alloc)?,
            doomed: self.doomed.copy(self.alloc)?,
            job: self.job.copy()?,
            leaves: self.leaves,
            last: self.last,
        })
    }
}
