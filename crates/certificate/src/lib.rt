// The certificate: the walk over tasks with the rules 4 to 7, for a board whose numbers are in their ranges.
#![tactic(auto)]

ghost use Rattle.std.specs.Prelude.{◌≡◌, []};
ghost use Rattle.paper.specs.Certificate.{walk};
ghost use Rattle.paper.specs.Laws.Ranges.{BoardIn};
ghost use Rattle.board.specs.Packed.{unpacked};
ghost use Rattle.certificate.specs.Verdicts.{packed_verdict};

use board::Board;
use bound::slack_of;
use columns::columns_of;
use paper::Refusal;
use quantity::Units;
use series::Series;

mod bound;
mod columns;

// The tasks from 1 up, each with the rules 4, 5, 6 and 7 before the next: their slacks, or the first broken rule. When a task is
// counted among those above, its bound is known to be within its period, so that no sum of the walk grows out of 64 bits.
pub fn judge_tasks(board: &Board) -> Result<Series<Units, 96>, Refusal>
    requires ranged { BoardIn (unpacked board.now) }
    ensures { result ≡ packed_verdict (walk (unpacked board.now).speeds [] (unpacked board.now).tasks) }
{
    let columns = columns_of(&board.speeds);
    let fastest = columns[0].own;
    let mut slacks = Series::new();
    for (i, task) in board.tasks.iter().enumerate() {
        let number = i as u32 + 1;
        if task.t < task.d {
            return Err(Refusal::DeadlineAbovePeriod(number));
        }
        if task.d < task.r {
            return Err(Refusal::BoundAboveDeadline(number));
        }
        // The first uncovered column is looked for by a labelled loop inside the walk, left by its label: a fixed form of the project.
        let last = board.speeds.len().min(i);
        let mut uncovered = None;
        'search: for (j, column) in columns[..=last].iter().enumerate() {
            if !column.covers(task) {
                uncovered = Some(j as u32);
                break 'search;
            }
        }
        if let Some(column) = uncovered {
            return Err(Refusal::ColumnUncovered(number, column));
        }
        let Some(slack) = slack_of(task, &board.tasks[..i], fastest) else {
            return Err(Refusal::BoundFails(number));
        };
        slacks.push(slack);
    }
    Ok(slacks)
}
