//! The padding of RFC 5652, section 6.3, which PKCS #7 names.

ghost use Rattle.std.specs.Prelude.{◌≡◌, ◌*◌, ◌/◌, ◌==◌, length, drop};
ghost use Rattle.std.specs.List.{list_all};
ghost use Rattle.qe_base.specs.Answers.{Answers};
ghost use Rattle.qe_seal.specs.Cbc.{padded_bytes, last_byte, padding_start, ends_in_padding, unpadded_bytes, kept_fault};

use crate::blocks::BLOCK_LEN;
use crate::cbc::CbcFault;
use qe_base::{Bytes, write_at};
use std::alloc::Global;

/// The last block of the padded bytes.
#[tactic(auto, unfolding(crate::specs::Cbc::padded_bytes))]
pub(crate) fn last_block(plain: &[u8]) -> [u8; 16]
    ensures { result ≡ drop (16 * (length plain.now / 16)) (padded_bytes plain.now) }
{
    let rest = &plain[plain.len() / BLOCK_LEN * BLOCK_LEN..];
    let mut block = [(BLOCK_LEN - rest.len()) as u8; BLOCK_LEN];
    write_at(&mut block, 0, rest);
    block
}

/// The bytes without their padding.
#[tactic(auto, unfolding(crate::specs::Cbc::unpadded_bytes))]
pub(crate) fn unpadded(alloc: Global, mut bytes: Vec<u8>) -> Result<Bytes, CbcFault>
    ensures { Answers (λ plain. plain) kept_fault result (unpadded_bytes bytes.items) }
{
    if !ends_in_padding(&bytes) {
        return Err(CbcFault::BadPadding);
    }
    bytes.truncate(padding_start(&bytes));
    Ok(Bytes::from_vec(alloc, bytes))
}

#[tactic(auto, unfolding(crate::specs::Cbc::ends_in_padding))]
fn ends_in_padding(bytes: &[u8]) -> bool
    ensures { result ≡ ends_in_padding bytes.now }
{
    let last = last_byte(bytes);
    1 <= last && last <= 16 && are_all(&bytes[padding_start(bytes)..], last)
}

fn are_all(bytes: &[u8], value: u8) -> bool
    ensures { result ≡ list_all (λ byte. byte == value) bytes.now }
{
    bytes.iter().all(|byte| *byte == value)
}

fn padding_start(bytes: &[u8]) -> usize
    ensures { result ≡ padding_start bytes.now }
{
    bytes.len().saturating_sub(last_byte(bytes) as usize)
}

fn last_byte(bytes: &[u8]) -> u8
    ensures { result ≡ last_byte bytes.now }
{
    bytes.last().copied().unwrap_or(0)
}
