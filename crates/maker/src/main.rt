// The table maker as a program: writes the made table's 2,048 bytes to standard output, for a divider that adds as many bits as the argument says, 7 or 8 (8 where there is none).
#![tactic(auto)]

ghost use Rattle.std.specs.Prelude.{◌≡◌};
ghost use Rattle.selection.specs.computed.Outcomes.{made_table};

use printing::argument::argument;
use printing::output::write_output;
use selection::maker::make_table;
use selection::{Estimate, TABLE_LENGTH};

fn made(estimate: Estimate) -> [u8; TABLE_LENGTH]
    ensures { result ≡ made_table estimate }
{
    let mut table = [0u8; TABLE_LENGTH];
    make_table(estimate, &mut table);
    table
}

fn run(rt: &HostRuntime) -> Result<(), &'static str> {
    let estimate = argument(rt).ok_or("usage: maker [7|8] > TABLE\n")?;
    if write_output(&mut rt.stdout(), &made(estimate)) < TABLE_LENGTH {
        return Err("maker: not all was written\n");
    }
    Ok(())
}

fn main(rt: HostRuntime) {
    if let Err(message) = run(&rt) {
        write_output(&mut rt.stderr(), message.as_bytes());
    }
}
