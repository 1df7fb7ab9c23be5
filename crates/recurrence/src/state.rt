// The state of a run, its step, and the answer that the last state gives.
ghost use Rattle.std.specs.Prelude.{◌≡◌, ℕ, ◌+◌, ◌%◌, ◌^◌, ◌<◌, ◌≤◌, List, slice_index};
ghost use Rattle.selection.specs.Cell.{column};
ghost use Rattle.selection.specs.Cell as Cell;
ghost use Rattle.selection.specs.Table.{Passes};
ghost use Rattle.selection.specs.computed.Table.{row_bytes};
ghost use Rattle.selection.specs.declared.Estimate.TheVariants.{EightBits};
ghost use Rattle.recurrence.specs.CarrySave.{lowest_carry};
ghost use Rattle.recurrence.specs.Recurrence.{step_by, next_of, state_from};
ghost use Rattle.recurrence.specs.computed.Recheck.{left_by};
ghost use Rattle.recurrence.specs.computed.FastRun.{Divider, MultiplesOf, run_state_of, state_of, top_bits_of, all_top_bits, DigitBytes, renewed, result_from_word};

use crate::{Division, RunResult};
use selection::Estimate;
use selection::passing::Rows;
use std::hint::select_unpredictable as choose;
use std::marker::Model;

// The next column needs the bits 61 to 53 of a word: what is left of it by 2^62, without the bits below 2^53.
const TOP_END: u64 = 0x4000_0000_0000_0000;

const TOP_BITS: u64 = 0xffe0_0000_0000_0000;

// The same of a divider that adds seven bits: without the bits below 2^54.
const TOP_BITS_OF_SEVEN: u64 = 0xffc0_0000_0000_0000;

// The sign bit of a word.
pub(crate) const SIGN: u64 = 0x8000_0000_0000_0000;

// The state of a run: the partial remainder in carry-save form, the column of the two words, the digit of the last step, the value of the digits so far and that
// value less one (decremented), both modulo 2^64.
#[derive(Clone, Copy)]
pub(crate) struct RunState {
    pub(crate) sum: u64,
    pub(crate) carry: u64,
    pub(crate) column: u64,
    pub(crate) digit: u8,
    value: u64,
    decremented: u64,
}

// What the steps by one divisor read, in a divider with an estimate: the multiple of the divisor for each digit byte, inverted for a digit above zero, and what
// the next column needs: which bits of a word, and those bits of the five multiples.
#[derive(Drop)]
pub(crate) struct Multiples {
    estimate: Estimate,
    divisor: u64,
    words: [u64; 5],
    mask: u64,
    tops: u64,
}

impl Model for Multiples {
    ghost Value = { Divider };

    ghost view = { λ m. record { estimate = m.estimate; divisor = m.divisor } };

    ghost invariant = { λ m. MultiplesOf m.estimate m.divisor m.words m.mask m.tops };
}

// The nine bits of a multiple that the next column needs, plus 256: two bits up, the column's 64.
fn top_bits(multiple: u64) -> u64
    ensures { result ≡ top_bits_of multiple }
{
    ((multiple >> 53) + 256) % 512
}

// The top bits of the five multiples, nine bits each, the first at the word's top: the last starts at bit 19.
fn all_top_bits(m: &[u64; 5]) -> u64
    ensures { result ≡ all_top_bits m.now }
{
    let mut tops = 0;
    for multiple in m {
        tops = (tops << 9) + top_bits(*multiple);
    }
    tops << 19
}

impl Multiples {
    pub(crate) fn new(estimate: Estimate, divisor: u64) -> Multiples
        requires { divisor < 2 ^ 61 }
        ensures { result ≡ record { estimate = estimate; divisor = divisor } }
    {
        let words = [2 * divisor, divisor, 0, !divisor, !(2 * divisor)];
        let mask = match estimate {
            Estimate::SevenBits => TOP_BITS_OF_SEVEN,
            Estimate::EightBits => TOP_BITS,
        };
        Multiples {
            estimate,
            divisor,
            words,
            mask,
            tops: all_top_bits(&words.map(|x| x & mask)),
        }
    }
}

// The 128 bytes of a row of a table, which are digit bytes.
#[derive(Drop)]
pub(crate) struct DigitRow<'a>(&'a [u8]);

impl<'a> Model for DigitRow<'a> {
    ghost Value = { List ℕ };

    ghost view = { λ row. row.0.now };

    ghost invariant = { λ row. DigitBytes row.0.now };
}

impl<'a> DigitRow<'a> {
    // The row of a divisor.
    pub(crate) fn of<T: Rows>(table: &'a T, divisor: u64) -> DigitRow<'a>
        ensures row { result ≡ row_bytes (T.table table.now) (Cell.row divisor) }
        ensures passes { Passes EightBits (T.table table.now) }
    {
        DigitRow(table.row(divisor))
    }

    // Bytes that are a row.
    pub(crate) fn lent(bytes: &'a [u8]) -> DigitRow<'a>
        requires { DigitBytes bytes.now }
        ensures { result ≡ bytes.now }
    {
        DigitRow(bytes)
    }

    pub(crate) fn at(&self, column: usize) -> u8
        requires { column < 128 }
        ensures { (result ≡ slice_index self.now column) × (result ≤ 4) }
    {
        self.0[column]
    }
}

// The column of two words: their truncated estimate, plus 64.
fn column_of(estimate: Estimate, sum: u64, carry: u64) -> u64
    ensures { result ≡ column estimate sum carry }
{
    match estimate {
        Estimate::SevenBits => ((sum >> 57) + (carry >> 57) + 64) % 128,
        Estimate::EightBits => ((sum >> 56) + (carry >> 56) + 128) % 256 / 2,
    }
}

// What is added at the free lowest carry place: one for the bytes 3 and 4.
fn lowest_carry(digit: u8) -> u64
    ensures { (result ≡ lowest_carry digit) × (result ≤ 1) }
{
    u64::from(2 < digit)
}

// One of the pair renewed by two more bits, the bits above 63 dropped: for k below 4 the decremented one with the bits k, else the value with the bits k - 4. It
// chooses first and appends after: the choice is a conditional move, but with the bits in the arms the compiler makes a branch on the digit.
fn renew(k: u64, value: u64, decremented: u64) -> u64
    ensures { result ≡ renewed k value decremented }
{
    (choose(k < 4, decremented, value) << 2) + k % 4
}

impl RunState {
    // No step is done: the digit is 0, and so is the value; one less is 2^64 - 1.
    pub(crate) fn new(sum: u64, carry: u64, multiples: &Multiples) -> RunState
        ensures { result ≡ run_state_of multiples.now.estimate (state_from sum carry multiples.now.divisor) }
    {
        RunState {
            sum,
            carry,
            column: column_of(multiples.estimate, sum, carry),
            digit: 2,
            value: 0,
            decremented: u64::MAX,
        }
    }

    // What a digit leaves of the remainder, and one divisor more, modulo 2^64. That its byte is at most 4 is asked here, of a step and of a cell's test: a type
    // for it would be built anew from each byte of a table.
    pub(crate) fn left_by(self, digit: u8, multiples: &Multiples) -> u64
        requires { digit ≤ 4 }
        ensures { result ≡ left_by digit (state_of multiples.now.divisor self) }
    {
        self.sum
            .wrapping_add(self.carry)
            .wrapping_add(multiples.words[digit as usize])
            .wrapping_add(lowest_carry(digit) + multiples.divisor)
    }

    // One step by a digit byte.
    pub(crate) fn step_by(self, digit: u8, multiples: &Multiples) -> RunState
        requires { digit ≤ 4 }
        ensures { result ≡ run_state_of multiples.now.estimate (step_by digit (state_of multiples.now.divisor self)) }
    {
        // The next column first, from the top bits of the words and of the multiple: the next digit waits for it, and for neither of the next words.
        let sum_tops = self.sum % TOP_END & multiples.mask;
        let carry_tops = self.carry % TOP_END & multiples.mask;
        let tops = sum_tops.wrapping_add(carry_tops) << 2;
        let column = tops.wrapping_add(multiples.tops << (9 * digit)) >> 57;
        // x is the inverted or plain multiple; two words that share no bit add up to the majority.
        let x = multiples.words[digit as usize];
        let half = self.sum ^ self.carry;
        let majority = (self.sum & self.carry).wrapping_add(half & x);
        let byte = u64::from(digit);
        RunState {
            sum: (half ^ x) << 2,
            carry: ((majority << 1) + lowest_carry(digit)) << 2,
            column,
            digit,
            value: renew(byte + 2, self.value, self.decremented),
            decremented: renew(byte + 1, self.value, self.decremented),
        }
    }

    // One step, through every table that has these bytes in the divisor's row.
    pub(crate) fn next(self, row: &DigitRow<'_>, multiples: &Multiples) -> RunState
        requires { self.column ≡ column multiples.now.estimate self.sum self.carry }
        ensures { (t : List ℕ) → row.now ≡ row_bytes t (Cell.row multiples.now.divisor) → result ≡ run_state_of multiples.now.estimate (next_of multiples.now.estimate t (state_of multiples.now.divisor self)) }
    {
        self.step_by(row.at(self.column as usize), multiples)
    }

    // The answer after the last step: the partial remainder is the words' wrapping sum.
    pub(crate) fn result(self, division: Division, count: usize) -> RunResult
        ensures { result ≡ result_from_word self.value self.decremented division.divisor ((self.sum + self.carry) % 2 ^ 64) count }
    {
        let word = self.sum.wrapping_add(self.carry);
        corrected(self.value, self.decremented, division, word, count)
    }
}

// The answer that the value of the digits, one less, the division, the partial remainder and the digits' number give. The remainder's sign, the
// top bit, chooses the quotient, and adds the divisor to a quarter of the remainder, whose two top bits are then set: no branch on the sign.
pub(crate) fn corrected(
    value: u64,
    decremented: u64,
    division: Division,
    word: u64,
    count: usize,
) -> RunResult
    ensures { result ≡ result_from_word value decremented division.divisor word count }
{
    let sign = word >> 63;
    RunResult {
        quotient: choose(word < SIGN, value, decremented),
        remainder: (word >> 2).wrapping_add(sign * (division.divisor + 0xc000_0000_0000_0000)),
        count,
    }
}
