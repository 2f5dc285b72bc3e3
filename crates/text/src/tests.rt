// A value that is handed on and never copied is read by count.
use super::*;
use crate::read::{FromLines, many};
use arrayvec::ArrayVec;
use quantity::Speed;
use std::test::Fail;

#[derive(Default, Drop)]
struct Owned {
    speed: Speed,
}

impl FromLines for Owned {
    ghost use Rattle.paper.specs.Text.{one, line};
    ghost use Rattle.quantity.specs.Quantity.{speed};
    ghost use Rattle.text.specs.Lines.{held};

    ghost reader = { held (λ v. record { speed = speed v }) (one (line "s=" 1 100)) };

    ghost most_lines = { 1 };

    fn from_lines(lines: &mut Lines) -> Result<Owned, BadLine> {
        Ok(Owned {
            speed: Speed(lines.next(&keys::SPEED, 1, 100)?),
        })
    }
}

#[test]
fn as_many_as_counted(rt: HostRuntime) -> Result<(), Fail> {
    let mut lines = Lines {
        rest: b"s=10\ns=8\ns=3\n",
        number: 2,
    };
    let read: ArrayVec<Owned, 8> = many(&mut lines, 2)?;
    assert_eq!(rt; read.len(), 2);
    assert_eq!(rt; read[0].speed, Speed(10));
    assert_eq!(rt; read[1].speed, Speed(8));
    assert_eq!(rt; lines.number, 4);
    let rest: Result<ArrayVec<Owned, 8>, BadLine> = many(&mut lines, 2);
    assert_eq!(rt; rest.err(), Some(BadLine::Malformed(5)));
    Ok(())
}
