//! The hash of a text.

ghost use Rattle.std.specs.Prelude.{◌≡◌, IfOk, string_bytes};
ghost use Rattle.hex.specs.Hex.{encode_lower};
ghost use Rattle.sha2.specs.Sha256.{sha256};

use qe_base::NoMemory;
use sha2::{Digest, Sha256};
use std::alloc::Global;

/// The SHA-256 of a text, in hex.
pub(crate) fn digest_text(alloc: Global, text: &[u8]) -> Result<String, NoMemory>
    ensures { IfOk result (λ digest. string_bytes digest ≡ encode_lower (sha256 text.now)) }
{
    let digest = Sha256::digest(text);
    Ok(hex::encode(alloc, digest.as_slice())?)
}
