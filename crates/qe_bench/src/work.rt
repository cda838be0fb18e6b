//! The kinds of work, each done many times.

use crate::collections::{finds, links, rows};
use crate::documents::{decoded, encoded, mixed, nested};
use crate::hashes::{compressions, digests, kept_macs, mac_lanes};
use hex::FromHex;
use qe_aes::Aes256;
use qe_base::NoMemory;
use qe_document::Document;
use qe_seal::{hmac, seal};
use std::alloc::Global;

/// What is done many times over.
#[derive(Clone, Copy, Debug, PartialEq, Eq)]
pub enum Work {
    /// The cipher of a block under one key.
    Aes,
    /// The counter mode over 4,096 bytes under one key.
    Ctr,
    /// A key schedule, and two blocks under that key.
    Schedule,
    /// HMAC of 32 bytes under a key of 32 bytes.
    Hmac,
    /// A digest of 32 bytes: one compression.
    Sha256,
    /// A compression in a lane, sixteen at once.
    Sha256Lanes,
    /// HMAC of a number under a kept key.
    Prf1,
    /// The same in a lane, sixteen at once.
    Prf1Lanes,
    /// The sealed value of 4 bytes.
    Seal,
    /// Reading and writing a document of 1,000 mixed fields, and one of 100 levels.
    Bson,
    /// Reading the document of 1,000 mixed fields.
    Decode,
    /// Writing it.
    Encode,
    /// Reading the document of 100 levels.
    DecodeNested,
    /// Writing it.
    EncodeNested,
    /// Rows of 1,000 tokens, added and searched; a turn is a row.
    Rows,
    /// Pairs of a tag and a document, linked and unlinked; a turn is a pair.
    Links,
    /// Finds of 100 documents among 10^5.
    Finds,
}

/// What so many turns give.
#[derive(Clone, Copy)]
pub struct Outcome {
    /// The last 16 bytes of the last result.
    pub last: [u8; 16],
    /// The number of bytes that a turn takes in.
    pub bytes: usize,
}

impl Work {
    /// The work of this name.
    pub fn named(name: &str) -> Option<Work> {
        match name {
            "aes" => Some(Work::Aes),
            "ctr" => Some(Work::Ctr),
            "schedule" => Some(Work::Schedule),
            "hmac" => Some(Work::Hmac),
            "sha256" => Some(Work::Sha256),
            "sha256_lanes" => Some(Work::Sha256Lanes),
            "prf1" => Some(Work::Prf1),
            "prf1_lanes" => Some(Work::Prf1Lanes),
            "seal" => Some(Work::Seal),
            "bson" => Some(Work::Bson),
            "decode" => Some(Work::Decode),
            "encode" => Some(Work::Encode),
            "decode_nested" => Some(Work::DecodeNested),
            "encode_nested" => Some(Work::EncodeNested),
            "rows" => Some(Work::Rows),
            "links" => Some(Work::Links),
            "finds" => Some(Work::Finds),
            _ => None,
        }
    }
}

/// What so many turns of a work give.
pub fn turned(alloc: Global, work: Work, turns: u64) -> Result<Outcome, NoMemory> {
    match work {
        Work::Aes => Ok(ended(aes(turns), 16)),
        Work::Ctr => Ok(ended(ctr(turns), 4096)),
        Work::Schedule => Ok(ended(schedule(turns), 32)),
        Work::Hmac => Ok(ended(macs(turns), 32)),
        Work::Sha256 => Ok(digests(turns)),
        Work::Sha256Lanes => Ok(compressions(turns)),
        Work::Prf1 => Ok(kept_macs(turns)),
        Work::Prf1Lanes => Ok(mac_lanes(turns)),
        Work::Seal => Ok(ended(seals(alloc, turns)?, 4)),
        Work::Bson => {
            both(alloc, mixed(alloc)?, turns)?;
            both(alloc, nested(alloc)?, turns)
        }
        Work::Decode => decoded(alloc, &mixed(alloc)?, turns),
        Work::Encode => encoded(alloc, &mixed(alloc)?, turns),
        Work::DecodeNested => decoded(alloc, &nested(alloc)?, turns),
        Work::EncodeNested => encoded(alloc, &nested(alloc)?, turns),
        Work::Rows => rows(alloc, turns),
        Work::Links => links(alloc, turns),
        Work::Finds => finds(alloc, turns),
    }
}

/// The cipher of a block under a key, which the hex digits are, one behind the other.
pub fn ciphered(digits: &str) -> Option<Outcome> {
    let bytes = <[u8; 48] as FromHex>::from_hex(digits).ok()?;
    Some(ended(cipher(&bytes), bytes.len()))
}

fn cipher(bytes: &[u8; 48]) -> [u8; 16] {
    let mut key = [0; 32];
    key.copy_from_slice(&bytes[..32]);
    Aes256::new(&key).encrypt(last_block(bytes))
}

fn ended(last: [u8; 16], bytes: usize) -> Outcome {
    Outcome { last, bytes }
}

fn both(alloc: Global, document: Document, turns: u64) -> Result<Outcome, NoMemory> {
    decoded(alloc, &document, turns)?;
    encoded(alloc, &document, turns)
}

// The key 00 to 1f.
fn key() -> [u8; 32] {
    let mut key = [0; 32];
    for i in 0u8..32 {
        key[i as usize] = i;
    }
    key
}

fn aes(turns: u64) -> [u8; 16] {
    let aes = Aes256::new(&key());
    let mut block = [0; 16];
    for _ in 0..turns {
        let next = aes.encrypt(block);
        block = next;
    }
    block
}

fn ctr(turns: u64) -> [u8; 16] {
    let aes = Aes256::new(&key());
    let mut bytes = [0; 4096];
    for _ in 0..turns {
        aes.ctr(&[0; 16], &mut bytes);
    }
    last_block(&bytes)
}

fn schedule(turns: u64) -> [u8; 16] {
    let mut key = key();
    let mut block = [0; 16];
    for _ in 0..turns {
        key[..16].copy_from_slice(&block);
        let aes = Aes256::new(&key);
        let next = aes.encrypt(aes.encrypt(block));
        block = next;
    }
    block
}

fn macs(turns: u64) -> [u8; 16] {
    let key = key();
    let mut mac = [0; 32];
    for _ in 0..turns {
        let next = hmac(&key, &mac);
        mac = next;
    }
    last_block(&mac)
}

// Each value is sealed under the last 16 bytes of the one before.
fn seals(alloc: Global, turns: u64) -> Result<[u8; 16], NoMemory> {
    let mut key = [0; 96];
    for i in 0u8..96 {
        key[i as usize] = i;
    }
    let mut iv = [0; 16];
    for _ in 0..turns {
        let sealed = seal(alloc, &key, &[1; 16], &iv, &5i32.to_le_bytes())?;
        let next = last_block(sealed.slice());
        iv = next;
    }
    Ok(iv)
}

/// The last 16 bytes, or zeros where there are fewer.
pub fn last_block(bytes: &[u8]) -> [u8; 16] {
    bytes.last_chunk::<16>().copied().unwrap_or([0; 16])
}
