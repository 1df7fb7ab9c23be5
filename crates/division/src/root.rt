// Square roots, a binary digit a step: of whole numbers, and of binary64 patterns with one rounding. No table is used.
ghost use Rattle.std.specs.Prelude.{◌≡◌, ℕ, suc, ◌+◌, ◌-◌, ◌*◌, ◌^◌, ◌<◌, ◌≤◌};
ghost use Rattle.division.specs.Format.{magnitude, FiniteNonzero};
ghost use Rattle.division.specs.computed.Directions.{direction_number};
ghost use Rattle.division.specs.computed.RootSteps.{DigitsTaken, finite_root, root_by_class, root_of};
ghost use Rattle.division.specs.computed.RootCalls.{root_whole_of, root_binary64_of};

use crate::format::{
    Binary64, Binary64Result, Class, INVALID, QUIET_NAN, SIGN_BIT, class_of, signalling,
    significand,
};
use crate::rounding::{Aligned, Direction, with_sticky};
use crate::whole::OPERAND_END;
use selection::{NO_REFUSAL, Reason, Refusal};
use std::hint::select_unpredictable;

// The answer, as C sees it: the refusal (0: none) and its place, the root and the remainder, zeros where the call refuses.
#[repr(C)]
#[derive(Clone, Copy)]
pub struct Root {
    pub refusal: Refusal,
    pub root: u64,
    pub remainder: u64,
}

// Twice the root so far, what is left, and the weight of the last digit: root * root + unit * rest stays the same.
#[derive(Clone, Copy)]
struct RootState {
    twice: u64,
    rest: u64,
    unit: u64,
}

impl RootState {
    // One digit more, of half the weight: 1 exactly if the trial fits, which the top bit of a wrapping difference tells. With `trial <= rest` in its place the
    // compiler makes a branch on the digit.
    fn next(self) -> RootState
        requires { (self.rest < self.twice + self.unit) × (self.twice + 2 * self.unit ≤ 2 ^ 63) }
        ensures { (m k : ℕ) → DigitsTaken m (suc k) self → DigitsTaken m k result }
    {
        let half = self.unit / 2;
        let trial = self.twice + half;
        let rest = 2 * self.rest;
        let less = rest.wrapping_sub(trial);
        let fits = less < SIGN_BIT;
        RootState {
            twice: self.twice + select_unpredictable(fits, self.unit, 0),
            rest: select_unpredictable(fits, less, rest),
            unit: half,
        }
    }
}

// The root of radicand * 2^first: its first digits, below the weight 2^first, as many as count says.
fn root_digits(radicand: u64, first: u64, count: u64) -> RootState
    requires { (radicand < 2 ^ first) × (first ≤ 62) × (count ≤ first) }
    ensures { DigitsTaken (2 ^ first * radicand) (first - count) result }
{
    let mut state = RootState {
        twice: 0,
        rest: radicand,
        unit: 1 << first,
    };
    for _ in 0..count {
        state = state.next();
    }
    state
}

// The whole root of a, and what is left of a: 30 digits of the root of a * 2^60. The answer is made here alone, so it has no `From`.
pub fn root_whole(a: u64) -> Root
    ensures { result ≡ root_whole_of a }
{
    if OPERAND_END <= a {
        return Root {
            refusal: Reason::TooLarge.into(),
            root: 0,
            remainder: 0,
        };
    }
    let state = root_digits(a, 60, 30);
    Root {
        refusal: NO_REFUSAL,
        root: state.twice >> 31,
        remainder: state.rest >> 30,
    }
}

// The root of a finite number above 0. Its half units of 2^(e - 1074), e = (exp + 970) / 2, are the root of m = sig * 2^(exp % 2) * 2^46, which has 54 bits:
// the first 54 digits of the root of m * 2^16.
fn finite_root(p: u64, direction: Direction) -> Binary64Result
    requires { FiniteNonzero p }
    ensures { result ≡ finite_root (direction_number direction) (magnitude p) }
{
    let x = significand(p);
    let state = root_digits(x.sig << (x.exp % 2), 62, 54);
    let root = Aligned {
        exponent: (x.exp + 970) / 2,
        quarters: with_sticky(state.twice / 512, state.rest),
    };
    root.rounded(direction, false)
}

// What the operand's class and its sign alone decide.
fn by_class(p: u64) -> Option<Binary64Result>
    ensures { result ≡ root_by_class p }
{
    let itself = Binary64Result {
        pattern: p,
        flags: 0,
    };
    match class_of(p) {
        Class::Zero => Some(itself),
        Class::Nan => Some(Binary64Result {
            pattern: QUIET_NAN,
            flags: if signalling(p) { INVALID } else { 0 },
        }),
        _ if SIGN_BIT <= p => Some(Binary64Result {
            pattern: QUIET_NAN,
            flags: INVALID,
        }),
        Class::Infinite => Some(itself),
        Class::Subnormal | Class::Normal => None,
    }
}

// The root of p in a direction.
fn root_of(p: u64, direction: Direction) -> Binary64Result
    ensures { result ≡ root_of (direction_number direction) p }
{
    by_class(p).unwrap_or_else(|| finite_root(p, direction))
}

// The pattern and the flags of the root of a in a direction, whose number C hands in.
pub fn root_binary64(a: u64, direction: u64) -> Binary64
    ensures { result ≡ root_binary64_of direction a }
{
    Direction::try_from(direction)
        .map(|direction| root_of(a, direction))
        .into()
}
