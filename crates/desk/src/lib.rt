// The entries for the planning desk's C program (include/batkhreli.h): an answer as code, place and detail.
#![tactic(auto)]

ghost use Rattle.std.specs.Prelude.{◌≡◌};
ghost use Rattle.paper.specs.Check.{check};
ghost use Rattle.paper.specs.Run.{run};
ghost use Rattle.paper.specs.Tables.{table};
ghost use Rattle.verdict.specs.Checks.{slack_numbers};
ghost use Rattle.desk.specs.Told.{Told, slacks_in};

use paper::{Numbers, Refusal};
use quantity::Units;

// Tells an answer: place and detail stand where they were asked for, and the code is the result.
fn tell(answer: Result<(), Refusal>, place: &mut u32, detail: &mut u32) -> u32
    ensures { Told answer result place.new detail.new }
{
    let numbers = Numbers::from(answer);
    *place = numbers.place;
    *detail = numbers.detail;
    numbers.code
}

// Checks the bounds of a board.
#[unsafe(no_mangle)]
pub extern "C" fn batkhreli_check(board: &[u8], place: &mut u32, detail: &mut u32) -> u32
    ensures { Told (check board.now).answer result place.new detail.new }
{
    tell(verdict::check(board).map(|_| ()), place, detail)
}

// The slacks in the first places, where there is a place for each of them. By index: what is written through `iter_mut` in a zip is
// not known after it.
fn put_slacks(slacks: &[Units], places: &mut [u64])
    ensures { places.new ≡ slacks_in (slack_numbers slacks.now) places.old }
{
    if places.len() < slacks.len() {
        return;
    }
    for (i, slack) in slacks.iter().enumerate() {
        places[i] = slack.0;
    }
}

// The same, with the slacks of an accepted board.
#[unsafe(no_mangle)]
pub extern "C" fn batkhreli_slacks(
    board: &[u8],
    slacks: &mut [u64],
    place: &mut u32,
    detail: &mut u32,
) -> u32
    ensures told { Told (check board.now).answer result place.new detail.new }
    ensures slacks_after { slacks.new ≡ slacks_in (check board.now).slacks slacks.old }
{
    let checked = verdict::check(board);
    if let Ok(found) = &checked {
        put_slacks(found, slacks);
    }
    tell(checked.map(|_| ()), place, detail)
}

// Runs a board and a release list; the responses go into the lent places.
#[unsafe(no_mangle)]
pub extern "C" fn batkhreli_run(
    text: &[u8],
    places: &mut [u32],
    place: &mut u32,
    detail: &mut u32,
) -> u32
    ensures told { Told (run text.now places.old).answer result place.new detail.new }
    ensures places_after { places.new ≡ (run text.now places.old).places }
{
    tell(run::run(text, places).map(|_| ()), place, detail)
}

// The table of one tick of a run; after 0 it stands in the eight seats.
#[unsafe(no_mangle)]
pub extern "C" fn batkhreli_table(
    text: &[u8],
    tick: u32,
    seats: &mut [u32; 8],
    place: &mut u32,
    detail: &mut u32,
) -> u32
    ensures told { Told (table text.now tick seats.old).answer result place.new detail.new }
    ensures seats_after { seats.new ≡ (table text.now tick seats.old).places }
{
    let shown = run::table::table(text, tick);
    if let Ok(table) = shown {
        *seats = table;
    }
    tell(shown.map(|_| ()), place, detail)
}
