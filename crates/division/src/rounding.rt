// Rounding, once for every operation that rounds: a magnitude in quarters of a unit to a pattern and its flags.
ghost use Rattle.std.specs.Prelude.{◌≡◌, ◌+◌, ◌*◌, ◌/◌, ◌%◌, ◌^◌, ◌<◌, ◌≤◌, min};
ghost use Rattle.division.specs.Rounding.{mode_of};
ghost use Rattle.division.specs.computed.Directions.{direction_number, DirectionOf};
ghost use Rattle.division.specs.computed.Rounding.{rounded_to, flags_of, rounded_result};
ghost use Rattle.division.specs.Rounded.{overflow_of};

use crate::format::{
    Binary64Result, HIDDEN_BIT, INEXACT, INFINITY, LARGEST_FINITE, OVERFLOW, UNDERFLOW, sign_bit,
};
use selection::{Reason, Refusal};

// The directions, in the order of their numbers.
#[derive(Clone, Copy)]
pub(crate) enum Direction {
    Nearest,
    TowardZero,
    Up,
    Down,
}

// What a direction means for a magnitude.
#[derive(Clone, Copy)]
pub enum Mode {
    Nearest,
    Toward,
    Away,
}

// An exponent e, and quarters of a unit of 2^(e - 1074), the lowest bit sticky.
#[derive(Clone, Copy)]
pub(crate) struct Aligned {
    pub(crate) exponent: u64,
    pub(crate) quarters: u64,
}

// C hands in the number of a direction.
impl TryFrom<u64> for Direction {
    type Error = Refusal;

    ghost try_from_gives = { DirectionOf };

    fn try_from(number: u64) -> Result<Direction, Refusal> {
        match number {
            0 => Ok(Direction::Nearest),
            1 => Ok(Direction::TowardZero),
            2 => Ok(Direction::Up),
            3 => Ok(Direction::Down),
            _ => Err(Reason::Direction.into()),
        }
    }
}

impl Direction {
    // What it means for a magnitude with a sign.
    fn mode(self, negative: bool) -> Mode
        ensures { result ≡ mode_of (direction_number self) negative }
    {
        match self {
            Direction::Nearest => Mode::Nearest,
            Direction::TowardZero => Mode::Toward,
            Direction::Up => if negative { Mode::Toward } else { Mode::Away },
            Direction::Down => if negative { Mode::Away } else { Mode::Toward },
        }
    }
}

// Twice q, and 1 more where r says that something is left.
pub(crate) fn with_sticky(q: u64, r: u64) -> u64
    requires { q < 2 ^ 60 }
    ensures { result ≡ 2 * q + min 1 r }
{
    2 * q + r.min(1)
}

// k units and a tail, rounded to whole units. A match on both at once compiles to a jump through a table, which is guessed wrong.
fn rounded_to(mode: Mode, k: u64, tail: u64) -> u64
    requires { (k < 2 ^ 60) × (tail < 4) }
    ensures { result ≡ rounded_to mode k tail }
{
    match mode {
        Mode::Nearest => match tail {
            0 | 1 => k,
            2 => k + k % 2,
            _ => k + 1,
        },
        Mode::Toward => k,
        Mode::Away => k + tail.min(1),
    }
}

// What overflow gives.
fn overflow(mode: Mode) -> u64
    ensures { result ≡ overflow_of mode }
{
    match mode {
        Mode::Nearest | Mode::Away => INFINITY,
        Mode::Toward => LARGEST_FINITE,
    }
}

// Inexact and underflow.
fn flags_of(e: u64, k: u64, tail: u64) -> u8
    ensures { result ≡ flags_of e k tail }
{
    match tail {
        0 => 0,
        _ if e == 0 && k < HIDDEN_BIT => INEXACT + UNDERFLOW,
        _ => INEXACT,
    }
}

impl Aligned {
    // Rounded in a direction, with a sign. Where the exponent is not 0, its units have 53 bits. A magnitude is below 2^2098 units of 2^-1074, so a quotient of
    // two is below 2^2098, and its e = E + 1022 at most 3119.
    pub(crate) fn rounded(self, direction: Direction, negative: bool) -> Binary64Result
        requires { (self.exponent ≤ 3119) × (self.quarters < 2 ^ 55) × (2 ^ 54 * min 1 self.exponent ≤ self.quarters) }
        ensures { result ≡ rounded_result (mode_of (direction_number direction) negative) negative self.exponent (self.quarters / 4) (self.quarters % 4) }
    {
        let mode = direction.mode(negative);
        let sign = sign_bit(negative);
        let k = self.quarters / 4;
        let tail = self.quarters % 4;
        let whole = rounded_to(mode, k, tail);
        let p = self.exponent * HIDDEN_BIT + whole;
        if INFINITY <= p {
            Binary64Result {
                pattern: sign + overflow(mode),
                flags: INEXACT + OVERFLOW,
            }
        } else {
            Binary64Result {
                pattern: sign + p,
                flags: flags_of(self.exponent, k, tail),
            }
        }
    }
}
