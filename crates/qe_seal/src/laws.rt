//! What holds of hashes, CBC and sealed values, each law as the contract of a function that does nothing.

ghost use Rattle.qe_seal.specs.CbcLaws.{CbcLaws};
ghost use Rattle.qe_seal.specs.Enciphered.{CipherLaws};
ghost use Rattle.qe_seal.specs.SealLaws.{SealLaws};
ghost use Rattle.qe_seal.specs.Examples.{IsHmacExample, IsCbcExample};

/// `cbc_encrypt` makes the only cipher that SP 800-38A allows, and `cbc_decrypt` and it undo each other.
pub fn cbc_laws()
    ensures { CbcLaws }
{}

/// `decipher` undoes `encipher`, and `decipher_pair` undoes `encipher_pair`.
pub fn cipher_laws()
    ensures { CipherLaws }
{}

/// `unseal` opens what `seal` makes, and nothing else.
pub fn seal_laws()
    ensures { SealLaws }
{}

/// Vectors of RFC 4231 and SP 800-38A, computed by the definitions that the contracts cite.
pub fn examples()
    ensures hmac { IsHmacExample }
    ensures cbc { IsCbcExample }
{}
