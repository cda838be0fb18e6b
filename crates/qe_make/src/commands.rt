//! The commands of a script, as JSON.

ghost use Rattle.std.specs.Prelude.{◌≡◌, IfOk};
ghost use Rattle.serde_json.specs.View.{view};
ghost use Rattle.qe_make.specs.Commands as commands;

use serde_json::{Value, json};
use std::alloc::{AllocError, Global};

/// How many units a step may do, which is the greatest number that a step may ask for.
const LIMIT: u32 = 65_536;

/// A document is inserted.
#[tactic(auto, unfolding(crate::specs::Commands::insert))]
pub fn insert(alloc: Global, id: u64, age: u32, score: i64) -> Result<Value, AllocError>
    ensures { IfOk result (λ json. view json ≡ commands.insert id age score) }
{
    json!(in alloc; {"do": "insert", "doc": {"_id": id, "age": age, "score": score}})
}

/// The document of an id gets another age.
#[tactic(auto, unfolding(crate::specs::Commands::update))]
pub fn update(alloc: Global, id: u64, age: u32) -> Result<Value, AllocError>
    ensures { IfOk result (λ json. view json ≡ commands.update id age) }
{
    json!(in alloc; {"do": "update", "filter": {"_id": id}, "set": {"age": age}})
}

/// The document of an id is deleted.
#[tactic(auto, unfolding(crate::specs::Commands::delete))]
pub fn delete(alloc: Global, id: u64) -> Result<Value, AllocError>
    ensures { IfOk result (λ json. view json ≡ commands.delete id) }
{
    json!(in alloc; {"do": "delete", "filter": {"_id": id}})
}

/// The ids of the documents of an age.
#[tactic(auto, unfolding(crate::specs::Commands::ids_of_age))]
pub fn ids_of_age(alloc: Global, age: u32) -> Result<Value, AllocError>
    ensures { IfOk result (λ json. view json ≡ commands.ids_of_age age) }
{
    json!(in alloc; {"do": "ids", "filter": {"age": age}})
}

/// The ids of the documents whose scores lie in an interval, with both ends.
#[tactic(auto, unfolding(crate::specs::Commands::ids_of_score))]
pub fn ids_of_score(alloc: Global, low: i64, high: i64) -> Result<Value, AllocError>
    ensures { IfOk result (λ json. view json ≡ commands.ids_of_score low high) }
{
    json!(in alloc; {"do": "ids", "filter": {"score": {"$gte": low, "$lte": high}}})
}

/// A job of maintenance begins.
#[tactic(auto, unfolding(crate::specs::Commands::begin))]
pub fn begin(alloc: Global, kind: &str) -> Result<Value, AllocError>
    ensures { IfOk result (λ json. view json ≡ commands.begin kind.now) }
{
    json!(in alloc; {"do": "begin", "kind": kind})
}

/// A step of the running job.
#[tactic(auto, unfolding(crate::specs::Commands::step))]
pub fn step(alloc: Global, job: u64) -> Result<Value, AllocError>
    ensures { IfOk result (λ json. view json ≡ commands.step job) }
{
    json!(in alloc; {"do": "step", "job": job, "limit": LIMIT})
}

/// The running job ends.
#[tactic(auto, unfolding(crate::specs::Commands::end_job))]
pub fn end_job(alloc: Global, job: u64) -> Result<Value, AllocError>
    ensures { IfOk result (λ json. view json ≡ commands.end_job job) }
{
    json!(in alloc; {"do": "end", "job": job})
}
