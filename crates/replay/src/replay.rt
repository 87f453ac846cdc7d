// Replay: a log and a sheet go in; yes, no or a refusal comes out. What is right is said in specs/Replay.antt.
ghost use Rattle.std.specs.Prelude.{◌≡◌};
ghost use Rattle.reader.specs.Log.{read_log};
ghost use Rattle.replay.specs.Replay.{replayed};

use crate::order::is_linearization;
use history::operations::{TABLE, tabulate};
use history::sheet::is_order_sheet;
use record::refusal::{Refusal, Refused};

// Holds the order that a sheet lists against a log. Yes, if it is a legal order of the log's operations; no, if it is none; or a refusal, of the log
// or of the sheet under 11.
pub fn replay(log: &[u8], sheet: &[u8]) -> Result<bool, Refused>
    ensures { result ≡ replayed (read_log log.now) sheet.now }
{
    let mut table = [0u32; TABLE];
    let counts = tabulate(log, &mut table)?;
    if !is_order_sheet(sheet) {
        return Err(Refused::from(Refusal::WrongSheet));
    }
    Ok(is_linearization(&table, counts.operations, counts.records + 1, sheet))
}
