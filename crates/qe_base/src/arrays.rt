//! Copies between slices and arrays.

ghost use Rattle.std.specs.Prelude.{◌≡◌, ◌+◌, ◌≤◌, ◌++◌, length, take, drop};

/// The array of the `N` bytes from place `at`.
pub fn array_at<const N: usize>(bytes: &[u8], at: usize) -> [u8; N]
    requires { at + N ≤ length bytes.now }
    ensures { result ≡ take N (drop at bytes.now) }
{
    let mut array = [0u8; N];
    array.copy_from_slice(&bytes[at..at + N]);
    array
}

/// The bytes of an array, which are as many as its type says.
pub fn bytes_of<const N: usize>(array: &[u8; N]) -> &[u8]
    ensures same { result.now ≡ array.now }
    ensures long { length result.now ≡ N }
{
    array
}

/// Writes a piece over the bytes from place `at` on.
pub fn write_at(bytes: &mut [u8], at: usize, piece: &[u8])
    requires { at + length piece.now ≤ length bytes.old }
    ensures { bytes.new ≡ take at bytes.old ++ (piece.now ++ drop (at + length piece.now) bytes.old) }
{
    bytes[at..at + piece.len()].copy_from_slice(piece);
}
