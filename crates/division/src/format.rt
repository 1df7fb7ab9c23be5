// The binary64 format: fields, classes, significands, flags, a result, and an answer.
ghost use Rattle.std.specs.Prelude.{◌≡◌};
ghost use Rattle.division.specs.Format.{class_of, FiniteNonzero, signalling, sign_of, sign_bit};
ghost use Rattle.division.specs.computed.Format.{binary64_numbers};
ghost use Rattle.division.specs.computed.Significands.{significand_of, Normalized};

use crate::whole::shift_of;
use selection::{NO_REFUSAL, Refusal};

// The weight of a significand's leading one, which a normal pattern leaves out: below it stands the fraction field, from it on the exponent field.
pub(crate) const HIDDEN_BIT: u64 = 0x10_0000_0000_0000;

pub(crate) const SIGN_BIT: u64 = 0x8000_0000_0000_0000;

pub(crate) const INFINITY: u64 = 0x7FF0_0000_0000_0000;

pub(crate) const LARGEST_FINITE: u64 = 0x7FEF_FFFF_FFFF_FFFF;

// The top fraction bit: 0 in a signalling not-a-number, 1 in a quiet one.
const QUIET_BIT: u64 = 0x8_0000_0000_0000;

pub(crate) const QUIET_NAN: u64 = 0x7FF8_0000_0000_0000;

// The flags: C reads their sum.
pub(crate) const INEXACT: u8 = 1;

pub(crate) const UNDERFLOW: u8 = 2;

pub(crate) const OVERFLOW: u8 = 4;

pub(crate) const DIVISION_BY_ZERO: u8 = 8;

pub(crate) const INVALID: u8 = 16;

// The pattern, and the sum of the flags, which is below 32.
#[derive(Clone, Copy)]
pub struct Binary64Result {
    pub pattern: u64,
    pub flags: u8,
}

// The answer, as C sees it: the refusal (0: none) and its place, the pattern and the sum of flags, zeros where the call refuses.
#[repr(C)]
#[derive(Clone, Copy)]
pub struct Binary64 {
    pub refusal: Refusal,
    pub pattern: u64,
    pub flags: u64,
}

impl From<Result<Binary64Result, Refusal>> for Binary64 {
    ghost from_gives = { λ answer x. x ≡ binary64_numbers answer };

    fn from(answer: Result<Binary64Result, Refusal>) -> Binary64 {
        match answer {
            Ok(x) => Binary64 {
                refusal: NO_REFUSAL,
                pattern: x.pattern,
                flags: u64::from(x.flags),
            },
            Err(refusal) => Binary64 {
                refusal,
                pattern: 0,
                flags: 0,
            },
        }
    }
}

// The patterns of a dividend and a divisor.
#[derive(Clone, Copy)]
pub(crate) struct Patterns {
    pub(crate) dividend: u64,
    pub(crate) divisor: u64,
}

// The class of a pattern.
#[derive(Clone, Copy, PartialEq, Eq)]
pub enum Class {
    Zero,
    Subnormal,
    Normal,
    Infinite,
    Nan,
}

// A finite magnitude other than 0, its significand moved up until the leading one is bit 60: sig * 2^exp units of 2^-1134.
#[derive(Clone, Copy)]
pub(crate) struct Scaled {
    pub(crate) sig: u64,
    pub(crate) exp: u64,
}

pub(crate) fn sign_bit(negative: bool) -> u64
    ensures { result ≡ sign_bit negative }
{
    if negative { SIGN_BIT } else { 0 }
}

// The exclusive or of the signs.
pub(crate) fn sign_of(a: u64, b: u64) -> bool
    ensures { result ≡ sign_of a b }
{
    (SIGN_BIT <= a) != (SIGN_BIT <= b)
}

// The operand's class, by its exponent field.
pub(crate) fn class_of(p: u64) -> Class
    ensures { result ≡ class_of p }
{
    let exponent = p / HIDDEN_BIT % 2048;
    let fraction = p % HIDDEN_BIT;
    match exponent {
        0 if fraction == 0 => Class::Zero,
        0 => Class::Subnormal,
        1..=2046 => Class::Normal,
        _ if fraction == 0 => Class::Infinite,
        _ => Class::Nan,
    }
}

// Is the pattern a signalling not-a-number's?
pub(crate) fn signalling(p: u64) -> bool
    ensures { result ≡ signalling p }
{
    class_of(p) == Class::Nan && p % HIDDEN_BIT < QUIET_BIT
}

// The significand and the exponent of a finite pattern that is not a zero. Three functions ask for such a pattern; a type for it would take a test more where the
// classes have decided.
pub(crate) fn significand(p: u64) -> Scaled
    requires { FiniteNonzero p }
    ensures { (result ≡ significand_of p) × (Normalized result) }
{
    let exponent = p / HIDDEN_BIT % 2048;
    let fraction = p % HIDDEN_BIT;
    if exponent == 0 {
        let shift = shift_of(fraction);
        Scaled {
            sig: fraction << shift,
            exp: u64::from(60 - shift),
        }
    } else {
        Scaled {
            sig: (HIDDEN_BIT + fraction) * 256,
            exp: exponent + 51,
        }
    }
}
