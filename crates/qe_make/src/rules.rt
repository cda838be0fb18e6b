//! What is written for each number: the rules in their order.

ghost use Rattle.std.specs.Prelude.{◌≡◌, ◌<◌, ◌^◌, ◌<ℤ◌, pos, [], ◌∷◌, false, OnOk};
ghost use Rattle.serde_json.specs.View.{view};
ghost use Rattle.serde_json.specs.Written.{has_float};
ghost use Rattle.qe_make.specs.Commands as command;
ghost use Rattle.qe_make.specs.Draft.{Adds};
ghost use Rattle.qe_make.specs.Generator.{next_state};
ghost use Rattle.qe_make.specs.Rules as rules;

use crate::commands;
use crate::generator::draw;
use qe_base::{Bytes, NoMemory};
use serde_json::Value;
use std::alloc::Global;

/// How many ages there are.
const AGES: u32 = 100;

/// How far the least score lies below 0.
const BELOW: i64 = 1_073_741_824;

/// How far an interval of scores reaches.
const REACH: i64 = 100_000_000;

/// A script that is being written: its text so far, and the state of the generator.
#[derive(Drop)]
pub struct Draft {
    pub alloc: Global,
    pub text: Bytes,
    pub state: u64,
}

impl Draft {
    /// Writes what is due for a number, from 1 to the number of documents.
    pub fn write_for(&mut self, documents: u64, i: u64) -> Result<(), NoMemory>
        requires some { 0 < i }
        requires few { documents < 2 ^ 32 }
        ensures { OnOk result (Adds (rules.written_for documents i) self.old self.new) }
    {
        self.insert(i)?;
        self.update(i)?;
        self.delete(i)?;
        self.find_age(i)?;
        self.find_scores(i)?;
        self.maintain(documents, i)
    }

    /// Adds a line.
    #[tactic(auto, unfolding(crate::specs::Made::line, crate::specs::Made::text_of))]
    pub fn add(&mut self, json: Value) -> Result<(), NoMemory>
        requires { has_float (view json) ≡ false }
        ensures { OnOk result (Adds (rules.plainly (view json ∷ [])) self.old self.new) }
    {
        let text = json.to_string(self.alloc)?;
        self.text.extend(text.as_bytes())?;
        self.text.extend(b"\n")
    }

    fn age(&mut self) -> u32
        ensures value { result ≡ rules.age_at self.old.state }
        ensures next { self.new ≡ record self.old { state = next_state self.old.state } }
    {
        draw(&mut self.state) % AGES
    }

    fn score(&mut self) -> i64
        ensures value { result ≡ rules.score_at self.old.state }
        ensures next { self.new ≡ record self.old { state = next_state self.old.state } }
        ensures bound { result <ℤ pos 1073741824 }
    {
        i64::from(draw(&mut self.state)) - BELOW
    }

    // A document with drawn values.
    #[tactic(auto, unfolding(crate::specs::Rules::insert))]
    fn insert(&mut self, i: u64) -> Result<(), NoMemory>
        ensures { OnOk result (Adds (rules.insert i) self.old self.new) }
    {
        let age = self.age();
        let score = self.score();
        let command = commands::insert(self.alloc, i, age, score)?;
        self.add(command)
    }

    // The fifth document before gets another age.
    #[tactic(auto, unfolding(crate::specs::Rules::update))]
    fn update(&mut self, i: u64) -> Result<(), NoMemory>
        requires { 0 < i }
        ensures { OnOk result (Adds (rules.update i) self.old self.new) }
    {
        if i % 10 != 0 {
            return Ok(());
        }
        let age = self.age();
        let command = commands::update(self.alloc, i - 5, age)?;
        self.add(command)
    }

    // The third document before is deleted.
    #[tactic(auto, unfolding(crate::specs::Rules::delete))]
    fn delete(&mut self, i: u64) -> Result<(), NoMemory>
        requires { 0 < i }
        ensures { OnOk result (Adds (rules.delete i) self.old self.new) }
    {
        if i % 25 != 0 {
            return Ok(());
        }
        let command = commands::delete(self.alloc, i - 3)?;
        self.add(command)
    }

    #[tactic(auto, unfolding(crate::specs::Rules::find_age))]
    fn find_age(&mut self, i: u64) -> Result<(), NoMemory>
        ensures { OnOk result (Adds (rules.find_age i) self.old self.new) }
    {
        if i % 20 != 0 {
            return Ok(());
        }
        let age = self.age();
        let command = commands::ids_of_age(self.alloc, age)?;
        self.add(command)
    }

    #[tactic(auto, unfolding(crate::specs::Rules::find_scores))]
    fn find_scores(&mut self, i: u64) -> Result<(), NoMemory>
        ensures { OnOk result (Adds (rules.find_scores i) self.old self.new) }
    {
        if i % 50 != 0 {
            return Ok(());
        }
        let low = self.score();
        let command = commands::ids_of_score(self.alloc, low, low + REACH)?;
        self.add(command)
    }

    // Four jobs, where there is a document for each.
    #[tactic(auto, unfolding(crate::specs::Rules::maintenance))]
    fn maintain(&mut self, documents: u64, i: u64) -> Result<(), NoMemory>
        requires { documents < 2 ^ 32 }
        ensures { OnOk result (Adds (rules.maintenance documents i) self.old self.new) }
    {
        if documents < 4 {
            return Ok(());
        }
        self.run_job(documents, i, 1)?;
        self.run_job(documents, i, 2)?;
        self.run_job(documents, i, 3)?;
        self.run_job(documents, i, 4)
    }

    // A step of the running job, which may do all that is left.
    fn step(&mut self, job: u64) -> Result<(), NoMemory>
        ensures { OnOk result (Adds (rules.plainly (command.step job ∷ [])) self.old self.new) }
    {
        let step = commands::step(self.alloc, job)?;
        self.add(step)
    }

    // A job behind its quarter of the documents.
    #[tactic(auto, unfolding(crate::specs::Rules::job_at))]
    fn run_job(&mut self, documents: u64, i: u64, job: u64) -> Result<(), NoMemory>
        requires few { documents < 2 ^ 32 }
        requires job { job < 5 }
        ensures { OnOk result (Adds (rules.job_at documents i job) self.old self.new) }
    {
        if i != job * documents / 4 {
            return Ok(());
        }
        let begin = commands::begin(self.alloc, kind_of(job))?;
        self.add(begin)?;
        self.step(job)?;
        self.step(job)?;
        let end = commands::end_job(self.alloc, job)?;
        self.add(end)
    }
}

// The last job is a cleanup.
fn kind_of(job: u64) -> &'static str
    ensures { result.now ≡ rules.kind_of job }
{
    if job == 4 { "cleanup" } else { "compact" }
}
