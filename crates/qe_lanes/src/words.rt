//! The functions of SHA-256 on words, in the standard's own form (FIPS 180-4, 4.1.2 and 6.2.2).

ghost use Rattle.std.specs.Prelude.{◌≡◌, [], ◌∷◌};
ghost use Rattle.sha2.specs.Sha256.{add32, big_sigma0, big_sigma1, ch, maj, small_sigma0, small_sigma1};

#[inline(always)]
fn ch(x: u32, y: u32, z: u32) -> u32
    ensures { result ≡ ch x y z }
{
    (x & y) ^ (!x & z)
}

#[inline(always)]
fn maj(x: u32, y: u32, z: u32) -> u32
    ensures { result ≡ maj x y z }
{
    (x & y) ^ (x & z) ^ (y & z)
}

#[inline(always)]
fn big_sigma0(x: u32) -> u32
    ensures { result ≡ big_sigma0 x }
{
    x.rotate_right(2) ^ x.rotate_right(13) ^ x.rotate_right(22)
}

#[inline(always)]
fn big_sigma1(x: u32) -> u32
    ensures { result ≡ big_sigma1 x }
{
    x.rotate_right(6) ^ x.rotate_right(11) ^ x.rotate_right(25)
}

#[inline(always)]
fn small_sigma0(x: u32) -> u32
    ensures { result ≡ small_sigma0 x }
{
    x.rotate_right(7) ^ x.rotate_right(18) ^ (x >> 3)
}

#[inline(always)]
fn small_sigma1(x: u32) -> u32
    ensures { result ≡ small_sigma1 x }
{
    x.rotate_right(17) ^ x.rotate_right(19) ^ (x >> 10)
}

/// A word of the schedule, from those 2, 7, 15 and 16 places before it.
#[inline(always)]
pub(crate) fn scheduled(two: u32, seven: u32, fifteen: u32, sixteen: u32) -> u32
    ensures { result ≡ add32 (add32 (add32 (small_sigma1 two) seven) (small_sigma0 fifteen)) sixteen }
{
    small_sigma1(two)
        .wrapping_add(seven)
        .wrapping_add(small_sigma0(fifteen))
        .wrapping_add(sixteen)
}

/// T1 of a round.
#[inline(always)]
pub(crate) fn first_sum(e: u32, f: u32, g: u32, h: u32, k: u32, word: u32) -> u32
    ensures { result ≡ add32 (add32 (add32 (add32 h (big_sigma1 e)) (ch e f g)) k) word }
{
    h.wrapping_add(big_sigma1(e))
        .wrapping_add(ch(e, f, g))
        .wrapping_add(k)
        .wrapping_add(word)
}

/// T2 of a round.
#[inline(always)]
pub(crate) fn second_sum(a: u32, b: u32, c: u32) -> u32
    ensures { result ≡ add32 (big_sigma0 a) (maj a b c) }
{
    big_sigma0(a).wrapping_add(maj(a, b, c))
}
