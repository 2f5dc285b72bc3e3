// Reading into a series as many as a line has counted: so a board and a release list hold them.
ghost use Rattle.std.specs.Prelude.{◌≡◌, ◌+◌, ◌*◌, ◌^◌, ◌≤◌, ◌<◌};
ghost use Rattle.paper.specs.Text.{times};
ghost use Rattle.text.specs.Lines.{Reads, held};
ghost use Rattle.text.specs.Many.{series_of};

use crate::read::FromLines;
use crate::{BadLine, Lines};
use series::{Blank, Series};

// `count` of them, one after the other.
pub fn read_series<T: FromLines + Blank + Copy, const N: usize>(
    lines: &mut Lines,
    count: u32,
) -> Result<Series<T, N>, BadLine>
    requires room { count ≤ N }
    requires few { lines.old.number + count * T.most_lines < 2 ^ 32 }
    ensures read { Reads (held series_of (times count T.reader)) lines.old.rest.now lines.old.number
        result lines.new.rest.now lines.new.number }
    ensures lines { lines.new.number ≤ lines.old.number + count * T.most_lines }
{
    let mut items = Series::new();
    for _ in 0..count {
        items.push(T::from_lines(lines)?);
    }
    Ok(items)
}
