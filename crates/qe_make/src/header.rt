//! The header of a script, as JSON.

ghost use Rattle.std.specs.Prelude.{◌≡◌, ◌+◌, ◌≤◌, string_bytes, IfOk};
ghost use Rattle.serde_json.specs.View.{view};
ghost use Rattle.qe_make.specs.Header.{key_text, seed_text, age_field, score_field, header};

use qe_base::write_at;
use serde_json::{Value, json};
use std::alloc::{AllocError, Global};

/// The greatest contention factor of both fields.
const CONTENTION: u32 = 4;

// A data key in hex digits: 96 bytes that count up from the one given.
#[tactic(auto, unfolding(crate::specs::Header::key_text))]
fn key_text(alloc: Global, first: u8) -> Result<String, AllocError>
    requires { first + 96 ≤ 255 }
    ensures { IfOk result (λ text. string_bytes text ≡ key_text first) }
{
    let bytes: Vec<u8> = (first..first + 96).collect(alloc)?;
    hex::encode(alloc, bytes.as_slice())
}

// The seed in hex digits, 32 bytes with the highest first.
#[tactic(auto, unfolding(crate::specs::Header::seed_text))]
fn seed_text(alloc: Global, seed: u64) -> Result<String, AllocError>
    ensures { IfOk result (λ text. string_bytes text ≡ seed_text seed) }
{
    let mut bytes = [0u8; 32];
    write_at(&mut bytes, 24, &seed.to_be_bytes());
    hex::encode(alloc, bytes)
}

#[tactic(auto, unfolding(crate::specs::Header::age_field))]
fn age_field(alloc: Global) -> Result<Value, AllocError>
    ensures { IfOk result (λ json. view json ≡ age_field) }
{
    let key = key_text(alloc, 0)?;
    json!(in alloc; {
        "path": "age",
        "bsonType": "int",
        "query": "equality",
        "contention": CONTENTION,
        "keyId": "00000000-0000-4000-8000-000000000001",
        "key": key,
    })
}

#[tactic(auto, unfolding(crate::specs::Header::score_field))]
fn score_field(alloc: Global) -> Result<Value, AllocError>
    ensures { IfOk result (λ json. view json ≡ score_field) }
{
    let key = key_text(alloc, 96)?;
    json!(in alloc; {
        "path": "score",
        "bsonType": "int",
        "query": "range",
        "min": i32::MIN,
        "max": i32::MAX,
        "contention": CONTENTION,
        "keyId": "00000000-0000-4000-8000-000000000002",
        "key": key,
    })
}

/// The header: an int of equality, an int of a range over all int32, and the seed of the random words.
#[tactic(auto, unfolding(crate::specs::Header::header))]
pub fn header(alloc: Global, seed: u64) -> Result<Value, AllocError>
    ensures { IfOk result (λ json. view json ≡ header seed) }
{
    let age = age_field(alloc)?;
    let score = score_field(alloc)?;
    let seed = seed_text(alloc, seed)?;
    json!(in alloc; {"seed": seed, "brief": true, "fields": [age, score]})
}
