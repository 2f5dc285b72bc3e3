// Reading what has lines of its own: one of it, as many as a line has counted, or a whole text.
ghost use Rattle.std.specs.Prelude.{◌≡◌, ℕ, ◌+◌, ◌*◌, ◌^◌, ◌≤◌, ◌<◌};
ghost use Rattle.paper.specs.Text.{Reader, times, one, line};
ghost use Rattle.quantity.specs.Quantity.{speed};
ghost use Rattle.text.specs.Lines.{Reads, held, whole_by};
ghost use Rattle.text.specs.Many.{array_of};

use crate::{BadLine, Lines, keys};
use arrayvec::ArrayVec;
use quantity::Speed;

// What is read from lines of its own.
pub trait FromLines: Sized {
    // The paper's reader of it.
    ghost reader: { Reader Self };

    // How many lines it has at most.
    ghost most_lines: { ℕ };

    fn from_lines(lines: &mut Lines) -> Result<Self, BadLine>
        requires few { lines.old.number + most_lines < 2 ^ 32 }
        ensures read { Reads reader lines.old.rest.now lines.old.number result lines.new.rest.now lines.new.number }
        ensures lines { lines.new.number ≤ lines.old.number + most_lines };
}

impl FromLines for Speed {
    ghost reader = { held speed (one (line "s=" 1 100)) };

    ghost most_lines = { 1 };

    fn from_lines(lines: &mut Lines) -> Result<Speed, BadLine> {
        Ok(Speed(lines.next(&keys::SPEED, 1, 100)?))
    }
}

// `count` of them, one after the other, in the kit's array, which asks no `Copy`. Boards and release lists are read into a series
// (`counted::read_series`).
pub fn many<T: FromLines + Default + Drop, const N: usize>(
    lines: &mut Lines,
    count: u32,
) -> Result<ArrayVec<T, N>, BadLine>
    requires room { count ≤ N }
    requires few { lines.old.number + count * T.most_lines < 2 ^ 32 }
    ensures read { Reads (held array_of (times count T.reader)) lines.old.rest.now lines.old.number result lines.new.rest.now lines.new.number }
    ensures lines { lines.new.number ≤ lines.old.number + count * T.most_lines }
{
    let mut items = ArrayVec::new();
    for _ in 0..count {
        items.push(T::from_lines(lines)?);
    }
    Ok(items)
}

// A whole text that holds one: its size first, then its lines from the top, and no byte after them.
pub fn whole<T: FromLines + Drop>(text: &[u8]) -> Result<T, BadLine>
    requires { 1 + T.most_lines < 2 ^ 32 }
    ensures { result ≡ whole_by T.reader text.now }
{
    let mut lines = Lines::of(text)?;
    // The value is handed on where it was read: a board and a list are not copied on the way.
    let read = T::from_lines(&mut lines);
    if read.is_ok() {
        lines.end()?;
    }
    read
}
