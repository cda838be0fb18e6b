//! AES-256 of FIPS 197, and its modes of NIST SP 800-38A.

ghost use Rattle.std.specs.Prelude.{◌≤◌};

use qe_aes::{Aes256, ctr, xor_front};
use qe_line::{
    Count, Fault, Hex, accepted, bytes_of, counting, print_answer, print_hex, print_line,
};
use qe_seal::{CbcFault, cbc_decrypt, cbc_encrypt};
use std::alloc::Global;

const KEY: &str = "603deb1015ca71be2b73aef0857d77811f352c073b6108d72d9810a30914dff4";

const PLAIN: &str = "6bc1bee22e409f96e93d7e117393172aae2d8a571e03ac9c9eb76fac45af8e51\
    30c81c46a35ce411e5fbc1191a0a52eff69f2445df4f9b17ad2b417be66c3710";

// Blocks that openssl enciphers without padding. They end in 00, 17 times 11, 03 02, and 11 with 15 times 10; then in 01
// and in 16 times 10.
const BLOCKS: [&str; 6] = [
    "46d6ec79493673d7c00d4dfa851a8686",
    "c05cbacb21d7e02f18dcce3f17b47010",
    "52d4d93d3a661959aa65db58ff6999ed",
    "0acfabf55076ef56f511995390a5f210",
    "0ef4ad36a97f407b692d8bf7cd6d781a",
    "5a6e045708fb7196f02e553d02c3a692",
];

/// Prints the vectors of the block cipher and of its modes.
pub fn print(rt: &HostRuntime) -> Result<(), Fault> {
    print_block(rt)?;
    print_counter(rt)?;
    print_wrap(rt)?;
    print_front(rt)?;
    print_cbc(rt)?;
    print_lengths(rt)?;
    print_padding(rt)
}

// FIPS 197, C.3, in the edition of 2001.
fn print_block(rt: &HostRuntime) -> Result<(), Fault> {
    let aes = Aes256::new(&counting(0));
    let plain = bytes_of("00112233445566778899aabbccddeeff")?;
    let cipher = aes.encrypt(plain);
    print_turned(rt, "encrypts", &plain, &cipher)?;
    print_turned(rt, "decrypts", &cipher, &aes.decrypt(cipher))
}

fn print_turned(rt: &HostRuntime, how: &str, from: &[u8; 16], to: &[u8; 16]) -> Result<(), Fault> {
    print_line(rt, format_args!("aes-256 {how} {}: {}", Hex(from), Hex(to)))
}

// SP 800-38A, F.5.5, whole and cut short: a part is enciphered as in the whole, and the rest stays.
fn print_counter(rt: &HostRuntime) -> Result<(), Fault> {
    let key = bytes_of(KEY)?;
    for len in [64, 63, 48, 33, 16, 5, 0] {
        let mut bytes: [u8; 64] = bytes_of(PLAIN)?;
        print_counted(rt, &key, &mut bytes, len)?;
    }
    Ok(())
}

fn print_counted(
    rt: &HostRuntime,
    key: &[u8; 32],
    bytes: &mut [u8; 64],
    len: usize,
) -> Result<(), Fault>
    requires { len ≤ 64 }
{
    let iv = counting(0xf0);
    ctr(key, &iv, &mut bytes[..len]);
    print_line(rt, format_args!("ctr of {len} bytes: {}", Hex(bytes)))?;
    Aes256::new(key).ctr(&iv, &mut bytes[..len]);
    print_hex(rt, "and back", bytes)
}

// The blocks behind the last counter, as OpenSSL 3 enciphers them.
fn print_wrap(rt: &HostRuntime) -> Result<(), Fault> {
    let mut bytes = [0; 32];
    ctr(&counting(0), &[0xff; 16], &mut bytes);
    print_hex(rt, "ctr from the last counter", &bytes)
}

// Only the front of the longer one is combined.
fn print_front(rt: &HostRuntime) -> Result<(), Fault> {
    let mut bytes = [0x0f, 0xf0, 0x55, 0xaa];
    xor_front(&mut bytes, &[0xff, 0xff, 0xff]);
    print_hex(rt, "xor with 3 bytes ff", &bytes)?;
    xor_front(&mut bytes, &[0x01; 9]);
    print_hex(rt, "xor with 9 bytes 01", &bytes)
}

// The first block is F.2.5's, the block of padding is by openssl.
fn print_cbc(rt: &HostRuntime) -> Result<(), Fault> {
    let key = bytes_of(KEY)?;
    let plain: [u8; 64] = bytes_of(PLAIN)?;
    let cipher = cbc_encrypt(rt.alloc(), &key, &counting(0), &plain[..16])?;
    print_both(rt, &key, cipher.slice())
}

fn print_both(rt: &HostRuntime, key: &[u8; 32], cipher: &[u8]) -> Result<(), Fault> {
    print_hex(rt, "cbc encrypts 16 bytes", cipher)?;
    let plain = accepted(cbc_decrypt(rt.alloc(), key, &counting(0), cipher))?;
    print_hex(rt, "and back", plain.slice())
}

// Lengths that are none.
fn print_lengths(rt: &HostRuntime) -> Result<(), Fault> {
    for length in [0, 1, 15, 17, 31] {
        print_decrypted(rt, &[0; 32][..length])?;
    }
    Ok(())
}

fn print_padding(rt: &HostRuntime) -> Result<(), Fault> {
    for digits in BLOCKS {
        print_decrypted(rt, &bytes_of::<16>(digits)?)?;
    }
    Ok(())
}

// Under the key 00 to 1f and the IV 10 to 1f.
fn print_decrypted(rt: &HostRuntime, cipher: &[u8]) -> Result<(), Fault> {
    let length = length_of_plain(rt.alloc(), cipher);
    print_answer(rt, format_args!("cbc decrypts {}", Hex(cipher)), length)
}

fn length_of_plain(alloc: Global, cipher: &[u8]) -> Result<Count<'static>, CbcFault> {
    let plain = cbc_decrypt(alloc, &counting(0), &counting(0x10), cipher)?;
    Ok(Count(plain.len(), "bytes"))
}
