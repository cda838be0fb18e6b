//! HMAC-SHA-256 of RFC 4231.

use qe_line::{Fault, Hex, print_hex, print_hexes, print_line};
use qe_seal::{HmacKey, hmac, prf1, prf2};

// RFC 4231, cases 1 and 2; and case 6, whose key is longer than a block.
const CASES: [(&[u8], &str); 3] = [
    (&[0x0b; 20], "Hi There"),
    (b"Jefe", "what do ya want for nothing?"),
    (
        &[0xaa; 131],
        "Test Using Larger Than Block-Size Key - Hash Key First",
    ),
];

/// Prints the vectors of keyed hashes.
pub fn print(rt: &HostRuntime) -> Result<(), Fault> {
    for (key, message) in CASES {
        print_macs(rt, key, message)?;
    }
    print_prfs(rt)
}

fn print_macs(rt: &HostRuntime, key: &[u8], message: &str) -> Result<(), Fault> {
    let mac = hmac(key, message.as_bytes());
    print_line(rt, format_args!("hmac of {message}: {}", Hex(&mac)))?;
    let mac = HmacKey::new(key).mac(message.as_bytes());
    print_hex(rt, "under a kept key", &mac)
}

// Numbers are hashed as little-endian bytes, by Python's `hmac`; then the same under a kept key.
fn print_prfs(rt: &HostRuntime) -> Result<(), Fault> {
    let key = [7; 32];
    let kept = HmacKey::new(&key);
    let rows = [
        ("prf1 of 258", prf1(&key, 0x0102)),
        ("prf1 of 258", kept.prf1(0x0102)),
        ("prf2 of 3 and 2^56", prf2(&key, 3, 1 << 56)),
        ("prf2 of 3 and 2^56", kept.prf2(3, 1 << 56)),
    ];
    print_hexes(rt, &rows)
}
