//! The parts of the counter mode of NIST SP 800-38A.

ghost use Rattle.std.specs.Prelude.{◌≡◌, ◌++◌, length, drop};
ghost use Rattle.qe_aes.specs.Field.{xor_bytes};
ghost use Rattle.qe_aes.specs.CounterMode.{counter_block};

/// Combines the bytes, from the first on, with those of `other`. The rest of the longer one is left alone.
pub fn xor_front(bytes: &mut [u8], other: &[u8])
    ensures { bytes.new ≡ xor_bytes bytes.old other.now ++ drop (length other.now) bytes.old }
{
    for i in 0..bytes.len().min(other.len()) {
        bytes[i] ^= other[i];
    }
}

/// Counter block `i`, where `iv` is the first.
pub(crate) fn counter_block(iv: &[u8; 16], i: usize) -> [u8; 16]
    ensures { result ≡ counter_block iv.now i }
{
    let first = u128::from_be_bytes(*iv);
    first.wrapping_add(i as u128).to_be_bytes()
}
