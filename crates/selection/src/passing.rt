// Tables that are known to pass the check, and their rows: a lent one and the kept one.
ghost use Rattle.std.specs.Prelude.{◌≡◌, ℕ, List, IfOk};
ghost use Rattle.selection.specs.Cell as Cell;
ghost use Rattle.selection.specs.Table.{Passes};
ghost use Rattle.selection.specs.declared.Estimate.TheVariants.{EightBits};
ghost use Rattle.selection.specs.computed.Answer.{admission_in};
ghost use Rattle.selection.specs.computed.Refusals.{first_refusal};
ghost use Rattle.selection.specs.computed.Table.{row_bytes, table_rules};
ghost use Rattle.selection.specs.computed.Outcomes.{made_table};

use crate::kept::kept_row;
use crate::table::{Outcome, check_table, row_of};
use crate::{Estimate, Reason, Refusal};

// A lent table that passes the check.
#[derive(Clone, Copy)]
pub struct PassingTable<'a> {
    pub bytes: &'a [u8],
    pub ghost passes: { Passes EightBits bytes.now },
}

// The kept table. It has no bytes here: a row of it is lent where it is stored.
#[derive(Clone, Copy)]
pub struct KeptTable;

// The rows of a table that passes the check.
pub trait Rows {
    // The bytes of the table.
    ghost table: { Self → List ℕ };

    // The row of a divisor.
    fn row(&self, divisor: u64) -> &[u8]
        ensures row { result.now ≡ row_bytes (table self.now) (Cell.row divisor) }
        ensures passes { Passes EightBits (table self.now) };
}

impl Rows for PassingTable<'_> {
    ghost table = { λ x. x.bytes.now };

    fn row(&self, divisor: u64) -> &[u8] {
        row_of(self.bytes, divisor)
    }
}

impl Rows for KeptTable {
    ghost table = { λ _. made_table EightBits };

    fn row(&self, divisor: u64) -> &[u8] {
        kept_row(divisor)
    }
}

// A lent table, where it passes the check by eight bits; else what every call but the check makes of it: the check's number and place.
pub fn passing(table: &[u8]) -> Result<PassingTable<'_>, Refusal>
    ensures refused { admission_in result ≡ first_refusal (table_rules EightBits table.now) }
    ensures lent { IfOk result (λ passing. passing.bytes.now ≡ table.now) }
{
    match check_table(Estimate::EightBits, table)?.outcome {
        Outcome::Passed => Ok(PassingTable { bytes: table }),
        Outcome::Bad(cell) => Err(Reason::BadCell.at(cell.place())),
    }
}
