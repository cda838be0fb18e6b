//! One stored value, opened.

ghost use Rattle.std.specs.Prelude.{◌≡◌, ◌≤◌, length, IfOk};
ghost use Rattle.std.specs.Option.{option_copied};
ghost use Rattle.qe_base.specs.Answers.{Answers};
ghost use Rattle.qe_seal.specs.Enciphered.{deciphered};
ghost use Rattle.qe_value.specs.Views.{plain};
ghost use Rattle.qe_opening.specs.Faults.{open_refusal};
ghost use Rattle.qe_opening.specs.Opening as spec;

use crate::fault::{OpenFault, ReadKind};
use crate::keys::FieldKey;
use qe_aes::ctr;
use qe_base::{NoMemory, array_at};
use qe_document::{Value, value_from};
use qe_indexed::IndexedValue;
use qe_seal::unseal;
use qe_tokens::ServerDataLevel1;
use std::alloc::Global;

/// The length of an IV, in bytes.
const IV_LEN: usize = 16;

// What was sent, of a server-encrypted value.
fn deciphered(alloc: Global, cipher: &ServerDataLevel1, value: &[u8]) -> Result<Vec<u8>, NoMemory>
    requires { 16 ≤ length value.now }
    ensures { IfOk result (λ sent. sent.items ≡ deciphered cipher.now.0 value.now) }
{
    let mut sent = Vec::from_slice(alloc, &value[IV_LEN..])?;
    ctr(&cipher.0, &array_at(value, 0), sent.as_mut_slice());
    Ok(sent)
}

// The value of a type in what was sent: the key's id, and sealed bytes.
fn unsealed(alloc: Global, key: &FieldKey, kind: u8, sent: &[u8]) -> Result<Value, OpenFault>
    ensures { Answers plain open_refusal result (spec.value_sent key.now kind sent.now) }
{
    let Some(sealed) = sent.strip_prefix(key.key_id.as_slice()) else {
        return Err(OpenFault::Kind(ReadKind::KeyDiffers));
    };
    let bytes = unseal(alloc, &key.key, &key.key_id, sealed)?;
    let value = value_from(alloc, kind, bytes.slice())?;
    Ok(value)
}

// The value of an indexed value under a field's key.
fn opened(alloc: Global, key: &FieldKey, indexed: &IndexedValue) -> Result<Value, OpenFault>
    ensures { Answers plain open_refusal result (spec.value_indexed key.now indexed.now) }
{
    if indexed.key_id != key.key_id {
        return Err(OpenFault::Kind(ReadKind::KeyDiffers));
    }
    let sent = deciphered(alloc, &key.cipher, indexed.server_value.slice())?;
    unsealed(alloc, key, indexed.value_kind, &sent)
}

/// The value of stored bytes in a field, or the first fault.
pub(crate) fn value_in(
    alloc: Global,
    key: Option<&FieldKey>,
    bytes: &[u8],
) -> Result<Value, OpenFault>
    ensures { Answers plain open_refusal result (spec.value_in (option_copied key.entry) bytes.now) }
{
    let indexed = IndexedValue::read(alloc, bytes)?;
    match key {
        None => Err(OpenFault::Kind(ReadKind::KeyDiffers)),
        Some(key) => opened(alloc, key, &indexed),
    }
}
