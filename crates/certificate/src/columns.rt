// The columns of a platform, for every j that a board can have.
ghost use Rattle.std.specs.Prelude.{◌≡◌};
ghost use Rattle.paper.specs.Certificate.{covers};
ghost use Rattle.quantity.specs.Quantity.{speeds_of};
ghost use Rattle.certificate.specs.Columns.{Slow, Tables, Columned};

use board::Task;
use quantity::Speed;

#[derive(Clone, Copy, Default)]
pub struct Column {
    // S_j, the sum of the j fastest speeds.
    pub sum: Speed,
    // s_(j+1), the speed after them: 0 past the last processor.
    pub own: Speed,
}

impl Column {
    pub fn covers(&self, task: &Task) -> bool
        requires { Columned self.now task.now }
        ensures { result ≡ covers self.now.sum.0 self.now.own.0 task.now.y task.now.z task.now.q.0 }
    {
        task.q.0 <= self.sum.0 * task.y + self.own.0 * task.z
    }
}

pub fn columns_of(speeds: &[Speed]) -> [Column; 9]
    requires { Slow speeds.now }
    ensures { Tables (speeds_of speeds.now) result }
{
    let mut columns = [Column::default(); 9];
    let mut sum = Speed(0);
    for (j, column) in columns.iter_mut().enumerate() {
        let own = speeds.get(j).copied().unwrap_or_default();
        *column = Column { sum, own };
        sum = Speed(sum.0 + own.0);
    }
    columns
}
