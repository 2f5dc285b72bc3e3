// The check: from the bytes of a board's text to the answer and the slacks.
#![tactic(auto)]

ghost use Rattle.verdict.specs.Checks.{Checks};

use paper::Refusal;
use quantity::Units;
use series::Series;

// One slack for each task.
pub type Slacks = Series<Units, 96>;

// First all lines, then the speeds, then the tasks from 1 up.
pub fn check(text: &[u8]) -> Result<Slacks, Refusal>
    ensures { Checks text.now result }
{
    let board = board::read_board(text)?;
    if let Some(processor) = board.rising() {
        return Err(Refusal::SpeedRises(processor));
    }
    certificate::judge_tasks(&board)
}
