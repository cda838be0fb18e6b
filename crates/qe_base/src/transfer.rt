//! Whole texts, from a source and into a sink.

ghost use Rattle.std.specs.Prelude.{◌≤◌, IfOk, IfErr, OnOk, OnErr};
ghost use Rattle.std.specs.Io.KnownBytes.{Appends};
ghost use Rattle.qe_base.specs.Faults.{HasCause};
ghost use Rattle.qe_base.specs.Transfer.{TakesAll, TakesSome, AppendsFront, IsWhyTaken};

use crate::{Bytes, Failed, NoMemory, Sink, Source};
use std::alloc::Global;
use thiserror::Error;

/// The greatest number of bytes that is taken from a source.
const LIMIT: usize = 1 << 28;

/// How many bytes are asked for at once.
const PIECE: usize = 4096;

/// Why a source wasn't taken to its end.
#[derive(Debug, Drop, Error)]
pub enum TakeFault {
    /// The source failed.
    #[error("the input can't be read")]
    ReadFault,
    /// So many bytes were taken, and that is more than 2^28.
    #[error("the input is too long: {taken} bytes were read, and at most {LIMIT} are allowed")]
    TooLong { taken: u64 },
    /// There was no memory.
    #[error("there is not enough memory")]
    NoMemory,
}

impl From<Failed> for TakeFault {
    ghost use Rattle.std.specs.Prelude.{◌≡◌};
    ghost use Rattle.qe_base.specs.declared.transfer.TakeFault.TheVariants.{ReadFault};

    ghost from_gives = { λ _ fault. fault ≡ ReadFault };

    fn from(_: Failed) -> Self {
        TakeFault::ReadFault
    }
}

impl From<NoMemory> for TakeFault {
    ghost use Rattle.std.specs.Prelude.{◌≡◌};
    ghost use Rattle.qe_base.specs.declared.transfer.TakeFault.TheVariants.{NoMemory};

    ghost from_gives = { λ _ fault. fault ≡ NoMemory };

    fn from(_: NoMemory) -> Self {
        TakeFault::NoMemory
    }
}

/// All bytes that a source has left, to its end. After a refusal the source stands behind the bytes that it gave.
pub fn take_all<S: Source>(alloc: Global, source: &mut S) -> Result<Bytes, TakeFault>
    ensures ok { IfOk result (TakesAll (S.left source.old) (S.left source.new)) }
    ensures err { OnErr result (TakesSome (S.left source.old) (S.left source.new)) }
    ensures why { IfErr result (IsWhyTaken (S.faults source.old) (S.faults source.new) (S.left source.old) (S.left source.new)) }
    ensures later { S.faults source.old ≤ S.faults source.new }
{
    let mut bytes = Bytes::new(alloc);
    let mut piece = [0u8; PIECE];
    while bytes.len() <= LIMIT {
        let count = source.read(&mut piece)?;
        if count == 0 {
            return Ok(bytes);
        }
        bytes.extend(&piece[..count])?;
    }
    Err(TakeFault::TooLong {
        taken: bytes.len() as u64,
    })
}

/// Puts all of a text into a sink, or a prefix of it where the sink fails. It takes no memory.
pub fn put_all<K: Sink>(sink: &mut K, text: &[u8]) -> Result<(), Failed>
    ensures ok { OnOk result (Appends (K.holds sink.old) (K.holds sink.new) text.now) }
    ensures err { OnErr result (AppendsFront (K.holds sink.old) (K.holds sink.new) text.now) }
    ensures cause { HasCause (K.faults sink.old) (K.faults sink.new) result }
{
    let mut done = 0;
    while done < text.len() {
        done += sink.put(&text[done..])?;
    }
    Ok(())
}
