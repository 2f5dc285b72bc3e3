// The refusals before the ticks, in their order.
ghost use Rattle.std.specs.Prelude.{◌≡◌, ◌≤◌, length};
ghost use Rattle.board.specs.Packed.{unpacked};
ghost use Rattle.releases.specs.Packed.{unpacked_list};
ghost use Rattle.run.specs.Order.{before_ticks};

use paper::Refusal;
use releases::Both;
use releases::legal::legality;

// A board and a list that were read, and `room` lent places: 3, 4 for all tasks, 10, 8.
pub fn ready(both: &Both, room: usize) -> Result<(), Refusal>
    ensures { result ≡ before_ticks (unpacked both.now.board) (unpacked_list both.now.list) room }
{
    if let Some(processor) = both.board.rising() {
        return Err(Refusal::SpeedRises(processor));
    }
    if let Some(task) = both.board.late() {
        return Err(Refusal::DeadlineAbovePeriod(task));
    }
    let count = both.list.releases.len();
    if room < count {
        return Err(Refusal::FewPlaces(count as u32));
    }
    legality(&both.board, &both.list)
}
