//! How single values are read.

ghost use Rattle.qe_document.specs.Views.{plain};
ghost use Rattle.qe_layout.specs.Leaves.{fixed_reads, bytes_reads, int32_reads, natural_reads};
ghost use Rattle.qe_layout.specs.Refusal.{Reads};

use crate::malformed::{Kind, Malformed, refuse};
use qe_base::Bytes;
use qe_document::Value;
use std::alloc::Global;

/// A binary of a subtype and of `N` bytes.
pub fn fixed<const N: usize>(
    alloc: Global,
    name: &str,
    value: Value,
    subtype: u8,
) -> Result<[u8; N], Malformed>
    ensures { Reads result (fixed_reads subtype N name.now (plain value)) }
{
    match value {
        Value::Binary {
            subtype: other,
            bytes,
        } => {
            if other != subtype {
                return refuse(alloc, name, Kind::WrongType);
            }
            match <[u8; N]>::try_from(bytes.slice()) {
                Ok(array) => Ok(array),
                Err(_) => refuse(alloc, name, Kind::WrongLength(bytes.len() as u64)),
            }
        }
        _ => refuse(alloc, name, Kind::WrongType),
    }
}

/// A binary of a subtype and of `least` bytes or more.
pub fn bytes(
    alloc: Global,
    name: &str,
    value: Value,
    subtype: u8,
    least: usize,
) -> Result<Bytes, Malformed>
    ensures { Reads result (bytes_reads subtype least name.now (plain value)) }
{
    match value {
        Value::Binary {
            subtype: other,
            bytes,
        } => {
            if other != subtype {
                refuse(alloc, name, Kind::WrongType)
            } else if bytes.len() < least {
                refuse(alloc, name, Kind::WrongLength(bytes.len() as u64))
            } else {
                Ok(bytes)
            }
        }
        _ => refuse(alloc, name, Kind::WrongType),
    }
}

/// An int32.
pub fn int32(alloc: Global, name: &str, value: Value) -> Result<i32, Malformed>
    ensures { Reads result (int32_reads name.now (plain value)) }
{
    match value {
        Value::Int32(number) => Ok(number),
        _ => refuse(alloc, name, Kind::WrongType),
    }
}

/// An int64 of 0 or more.
pub fn natural(alloc: Global, name: &str, value: Value) -> Result<i64, Malformed>
    ensures { Reads result (natural_reads name.now (plain value)) }
{
    match value {
        Value::Int64(number) => {
            if number < 0 {
                refuse(alloc, name, Kind::Negative)
            } else {
                Ok(number)
            }
        }
        _ => refuse(alloc, name, Kind::WrongType),
    }
}
