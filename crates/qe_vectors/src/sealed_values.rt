//! Sealed values, as openssl makes them.

use qe_base::{Bytes, NoMemory};
use qe_line::{Fault, Hex, bytes_of, counting, print_hex, print_line};
use qe_seal::{SealFault, seal, unseal};
use std::alloc::Global;

const SEALED: &str = "101112131415161718191a1b1c1d1e1f2f54e8a316c8bffdcc51248d1664f017\
    22c635e90c728e38b5e8751a0059d4053152a1d13aea1d92704df4e517c40709";

/// Prints what is sealed and unsealed under the key 00 to 5f.
pub fn print(rt: &HostRuntime) -> Result<(), Fault> {
    print_sealed(rt)?;
    let mut bytes: [u8; 64] = bytes_of(SEALED)?;
    print_unsealed(rt, &bytes)?;
    print_unsealed(rt, &[0; 63])?;
    bytes[63] = 0;
    print_unsealed(rt, &bytes)
}

fn print_sealed(rt: &HostRuntime) -> Result<(), Fault> {
    let sealed = sealed(rt.alloc())?;
    print_hex(rt, "sealed 2a000000", sealed.slice())
}

fn sealed(alloc: Global) -> Result<Bytes, NoMemory> {
    let (key, id, iv) = (counting(0), counting(0xa0), counting(0x10));
    seal(alloc, &key, &id, &iv, &[42, 0, 0, 0])
}

fn print_unsealed(rt: &HostRuntime, bytes: &[u8]) -> Result<(), Fault> {
    match unseal(rt.alloc(), &counting(0), &counting(0xa0), bytes) {
        Ok(plain) => print_plain(rt, bytes.len(), plain.slice()),
        Err(fault) => print_refused(rt, bytes.len(), fault),
    }
}

fn print_plain(rt: &HostRuntime, length: usize, plain: &[u8]) -> Result<(), Fault> {
    print_line(rt, format_args!("unsealed {length} bytes: {}", Hex(plain)))
}

fn print_refused(rt: &HostRuntime, length: usize, fault: SealFault) -> Result<(), Fault> {
    match fault {
        SealFault::MacDiffers { want, got } => print_line(
            rt,
            format_args!("the MAC is {}, not {}", Hex(&want), Hex(&got)),
        ),
        fault => print_line(rt, format_args!("unsealed {length} bytes: {fault:?}")),
    }
}
