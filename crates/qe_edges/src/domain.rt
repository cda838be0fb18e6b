//! Domains: the rules of a range field, and which make one.

ghost use Rattle.std.specs.Prelude.{◌≡◌, ◌^◌, ◌<◌, ◌≤◌, ◌<ℤ◌, ◌≤ℤ◌, ◌↔◌, Err, IsTrue, IfOk};
ghost use Rattle.qe_edges.specs.Rules.{offset_of, bits_of, binary_digits, HasDigits, rules_of, IsSparsity, HasTrimFault, InDomain, IsDomain};

use crate::levels::stored_from;
use std::marker::Model;
use thiserror::Error;

/// The greatest lowest stored level. With it a cover has at most `MOST_OF_COVER` prefixes.
const GREATEST_LOWEST_LEVEL: u32 = 10;

/// The trim factor where none is given, for strings of more digits.
const DEFAULT_TRIM: u32 = 6;

/// Why rules make no domain. They are tried in this order.
#[derive(Clone, Copy, Debug, PartialEq, Eq, Error)]
pub enum DomainFault {
    /// The least value isn't below the greatest.
    #[error("the least value is not below the greatest")]
    MinNotBelowMax,
    /// The sparsity isn't 1 to 8.
    #[error("the sparsity is not 1 to 8")]
    SparsityRange,
    /// The trim factor isn't below the number of digits, or the lowest stored level is above 10.
    #[error("the trim factor is not below the number of digits, or no stored level has at most 10")]
    TrimRange,
}

/// The rules of a range field: its least and greatest value, its sparsity and its trim factor.
#[derive(Clone, Copy, Debug, PartialEq, Eq)]
pub struct Domain {
    min: i64,
    max: i64,
    sparsity: u32,
    trim: u32,
}

impl Model for Domain {
    ghost use Rattle.qe_edges.specs.Rules.{Rules, IsDomain};

    ghost Value = { Rules };

    ghost view = { λ d. record { min = d.min; max = d.max; sparsity = d.sparsity; trim = d.trim } };

    ghost invariant = { λ d. IsDomain (record { min = d.min; max = d.max; sparsity = d.sparsity; trim = d.trim }) };

    ghost inverse = { λ r. record { min = r.min; max = r.max; sparsity = r.sparsity; trim = r.trim } };
}

impl Domain {
    /// The domain of these rules. The default trim factor is 6, or one below the number of digits where that is less.
    pub fn new(min: i64, max: i64, sparsity: u32, trim: Option<u32>) -> Result<Domain, DomainFault>
        ensures ok { IfOk result (λ domain. domain ≡ rules_of min max sparsity trim) }
        ensures domain { IfOk result IsDomain }
        ensures order { (result ≡ Err DomainFault.MinNotBelowMax) ↔ (max ≤ℤ min) }
        ensures sparsity { (result ≡ Err DomainFault.SparsityRange) ↔ ((min <ℤ max) × ¬ IsSparsity sparsity) }
        ensures trim { (result ≡ Err DomainFault.TrimRange)
            ↔ ((min <ℤ max) × IsSparsity sparsity × HasTrimFault (rules_of min max sparsity trim)) }
    {
        if min >= max {
            return Err(DomainFault::MinNotBelowMax);
        }
        if !(1..=8).contains(&sparsity) {
            return Err(DomainFault::SparsityRange);
        }
        let bits = binary_digits(max.abs_diff(min));
        let trim = trim.unwrap_or(DEFAULT_TRIM.min(bits - 1));
        if trim >= bits || stored_from(0, bits, sparsity, trim) > GREATEST_LOWEST_LEVEL {
            return Err(DomainFault::TrimRange);
        }
        Ok(Domain {
            min,
            max,
            sparsity,
            trim,
        })
    }

    /// The number of binary digits of a value's string, 1 to 64.
    pub fn bits(&self) -> u32
        ensures value { result ≡ bits_of self.now }
        ensures digits { HasDigits (offset_of self.now self.now.max) result }
        ensures range { (1 ≤ result) × (result ≤ 64) }
        ensures domain { IsDomain self.now }
    {
        binary_digits(self.max.abs_diff(self.min))
    }

    /// The least value.
    pub fn min(&self) -> i64
        ensures { result ≡ self.now.min }
    {
        self.min
    }

    /// The greatest value.
    pub fn max(&self) -> i64
        ensures { result ≡ self.now.max }
    {
        self.max
    }

    /// Between the trim factor and the whole string, levels that are multiples of this are stored.
    pub fn sparsity(&self) -> u32
        ensures { result ≡ self.now.sparsity }
    {
        self.sparsity
    }

    /// Levels below this are not stored.
    pub fn trim(&self) -> u32
        ensures { result ≡ self.now.trim }
    {
        self.trim
    }

    /// Whether the value is in the domain.
    pub fn holds(&self, v: i64) -> bool
        ensures { IsTrue result ↔ InDomain self.now v }
    {
        self.min <= v && v <= self.max
    }

    /// The number of a value's string. It has 128 bits so that the end of an interval, one behind it, fits as well.
    pub(crate) fn offset(&self, v: i64) -> u128
        requires { InDomain self.now v }
        ensures value { result ≡ offset_of self.now v }
        ensures within { result < 2 ^ bits_of self.now }
    {
        u128::from(v.abs_diff(self.min))
    }
}

fn binary_digits(number: u64) -> u32
    ensures { result ≡ binary_digits number }
{
    64 - number.leading_zeros()
}
