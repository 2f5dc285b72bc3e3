// What a run and a table begin with: a board and a list that were read are refused or found legal, and every release's units are named.
ghost use Rattle.run.specs.Whole.{Prepared};

use crate::{order, units};
use paper::Refusal;
use releases::Both;

// What is refused before the ticks of a run that has `room` lent places; otherwise each release's units are named where it stands.
pub fn prepare(both: &mut Both, room: usize) -> Result<(), Refusal>
    ensures { Prepared both.old room result both.new }
{
    order::ready(both, room)?;
    units::name_units(&both.board, &mut both.list.releases);
    Ok(())
}
