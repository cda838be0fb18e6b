//! Laws about the texts of forms.

ghost use Rattle.std.specs.Prelude.{◌≡◌, ◌↔◌, ℕ, ℤ, List, true, Some};
ghost use Rattle.std.specs.Fmt.{signed_decimal};
ghost use Rattle.std.specs.Result.{result_ok};
ghost use Rattle.base64.specs.Engines.{standard};
ghost use Rattle.base64.specs.GeneralPurpose.{IsBytes, decode_of, encode_of};
ghost use Rattle.qe_json_forms.specs.Forms.{fits, whole_in};

/// The texts of `$numberInt` and `$numberLong` are those in which integers of 32 and 64 bits are written, and each
/// stands for its integer.
pub fn an_integer_has_one_text()
    ensures int { (text : List ℕ) (z : ℤ)
        → (whole_in 31 text ≡ Some z) ↔ ((fits 31 z ≡ true) × (text ≡ signed_decimal z)) }
    ensures long { (text : List ℕ) (z : ℤ)
        → (whole_in 63 text ≡ Some z) ↔ ((fits 63 z ≡ true) × (text ≡ signed_decimal z)) }
{}

/// A text of base64 is the one that is written for its bytes (RFC 4648, section 4).
pub fn bytes_have_one_text()
    ensures { (text bytes : List ℕ) → IsBytes text → IsBytes bytes
        → (result_ok (decode_of standard text) ≡ Some bytes) ↔ (text ≡ encode_of standard bytes) }
{}
