// The maker of a table.
ghost use Rattle.std.specs.Prelude.{◌≡◌, ℕ, ◌<◌, ◌≤◌, [], slice_index_or};
ghost use Rattle.selection.specs.computed.Answer.{refusal_of};
ghost use Rattle.selection.specs.computed.Maker.{limits_numbers};
ghost use Rattle.selection.specs.computed.Outcomes.{limits_of, row_limits_of, make_of};
ghost use Rattle.selection.specs.Maker.{AreLimits, step_at};

use crate::cell::RowMultiples;
use crate::{Estimate, NO_REFUSAL, Reason, Refusal, TABLE_LENGTH};

impl RowMultiples {
    // The six columns at which the made digits of the row change.
    pub(crate) fn limits(self) -> [u8; 6]
        ensures { (result ≡ limits_of self.estimate self.row) × AreLimits self.estimate self.row result }
    {
        [
            self.minus8 + 1,
            self.minus5 + 1,
            self.minus2 + 1,
            self.plus2 + 1,
            self.plus5 + 1,
            self.plus8 + 1,
        ]
    }
}

// A row's limits as C sees them, or refusal 1 and zeros.
#[repr(C)]
#[derive(Clone, Copy)]
pub struct Limits {
    pub refusal: Refusal,
    pub limits: [u8; 6],
}

impl From<Result<[u8; 6], Refusal>> for Limits {
    ghost from_gives = { λ answer x. x ≡ limits_numbers answer };

    fn from(answer: Result<[u8; 6], Refusal>) -> Limits {
        match answer {
            Ok(limits) => Limits {
                refusal: NO_REFUSAL,
                limits,
            },
            Err(refusal) => Limits {
                refusal,
                limits: [0; 6],
            },
        }
    }
}

// The limits of a row, or refusal 1.
pub(crate) fn limits_in(estimate: Estimate, row: u64) -> Result<[u8; 6], Refusal>
    ensures { limits_numbers result ≡ row_limits_of estimate row }
{
    if 15 < row {
        return Err(Reason::Cell.into());
    }
    Ok(RowMultiples::new(estimate, row).limits())
}

// The limits of a row.
pub fn row_limits(estimate: Estimate, row: u64) -> Limits
    ensures { result ≡ row_limits_of estimate row }
{
    limits_in(estimate, row).into()
}

// The byte at a column of a row with the limits l.
pub(crate) fn digit_at(l: [u8; 6], c: u8) -> u8
    ensures { result ≡ step_at l c }
{
    match c {
        _ if c < l[0] => 2,
        _ if c < l[1] => 0,
        _ if c < l[2] => 1,
        _ if c < l[3] => 2,
        _ if c < l[4] => 3,
        _ if c < l[5] => 4,
        _ => 2,
    }
}

// The limits of all rows.
fn all_limits(estimate: Estimate) -> [[u8; 6]; 16]
    ensures { (j : ℕ) → j < 16 → AreLimits estimate j (slice_index_or result j []) }
{
    let mut all = [[0u8; 6]; 16];
    for (row, limits) in all.iter_mut().enumerate() {
        *limits = RowMultiples::new(estimate, row as u64).limits();
    }
    all
}

// The made table, in the first 2,048 bytes of the buffer, or refusal 7.
pub(crate) fn write_table(estimate: Estimate, buffer: &mut [u8]) -> Result<(), Refusal>
    ensures { record { answer = refusal_of result; buffer = buffer.new } ≡ make_of estimate buffer.old }
{
    if buffer.len() < TABLE_LENGTH {
        return Err(Reason::Room.into());
    }
    let all = all_limits(estimate);
    for (k, byte) in buffer[..TABLE_LENGTH].iter_mut().enumerate() {
        *byte = digit_at(all[k / 128], (k % 128) as u8);
    }
    Ok(())
}

// The made table, in the first 2,048 bytes of the buffer.
pub fn make_table(estimate: Estimate, buffer: &mut [u8]) -> Refusal
    ensures { record { answer = result; buffer = buffer.new } ≡ make_of estimate buffer.old }
{
    write_table(estimate, buffer).into()
}
