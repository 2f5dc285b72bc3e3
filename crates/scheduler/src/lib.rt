// The scheduler, tick by tick: what became ready, who sits where, and what work leaves.
#![tactic(auto)]

ghost use Rattle.std.specs.Prelude.{◌≡◌, ◌≤◌, length, slice_index, slice_set, EachIndex, OnErr};
ghost use Rattle.paper.specs.Scheduler.{table};
ghost use Rattle.releases.specs.Packed.{releases_of};
ghost use Rattle.scheduler.specs.State.{fresh_run, units_left};
ghost use Rattle.scheduler.specs.Tick.{Listed, Cursor, Standing, Ticked, stepped};
ghost use Rattle.scheduler.specs.Steps.{Released, Worked};

use quantity::{Speed, Ticks, Units};
use releases::Release;

// For each of 96 task places the units left of its job, the tick of its release and the place of that release in the list,
// from 0. Then who sat on which processor in the last tick, and the release that comes next in the list.
// Side by side, and filled by repeat, by a rule of the project: 96 remaining units, 96 release ticks.
#[derive(Clone, Copy)]
pub struct RunState {
    pub left: [Units; 96],
    pub since: [Ticks; 96],
    pub job: [u32; 96],
    pub table: [u32; 8],
    pub next: usize,
}

// The release, counted from 1, that met an unfinished job of its task, and its tick.
#[derive(Clone, Copy, Debug, PartialEq, Eq)]
pub struct Overrun {
    pub release: u32,
    pub tick: Ticks,
}

// A fresh run: 96 empty task places.
pub fn fresh() -> RunState
    ensures { result ≡ fresh_run }
{
    RunState {
        left: [Units(0); 96],
        since: [Ticks(0); 96],
        job: [0; 96],
        table: [0; 8],
        next: 0,
    }
}

// Who sits on which processor: the first tasks that have something left, in order, 0 for an idle or absent place.
pub fn dispatch(left: &[Units; 96], procs: usize) -> [u32; 8]
    requires few { procs ≤ 8 }
    ensures { result ≡ table procs (units_left left.now) }
{
    let mut table = [0; 8];
    let mut seated = 0;
    for (i, left) in left.iter().enumerate() {
        if *left != Units(0) {
            if seated == procs {
                break;
            }
            table[seated] = i as u32 + 1;
            seated += 1;
        }
    }
    table
}

// The jobs released at tick `time` become ready, up to one that meets an unfinished job of its task.
fn release_due(run: &mut RunState, releases: &[Release], time: Ticks) -> Result<(), Overrun>
    requires listed { Listed (releases_of releases.now) }
    requires cursor { Cursor (releases_of releases.now) run.old.next time.0 }
    ensures { Released releases.now time.0 run.old result run.new }
{
    for release in &releases[run.next..] {
        if release.at != time {
            break;
        }
        let place = (release.task - 1) as usize;
        if run.left[place] != Units(0) {
            return Err(Overrun {
                release: run.next as u32 + 1,
                tick: time,
            });
        }
        run.left[place] = release.units;
        run.since[place] = time;
        run.job[place] = run.next as u32;
        run.next += 1;
    }
    Ok(())
}

// The response of a job, in the place of its release; a release that has no place is passed over. (An index under a test:
// after a write through `get_mut` nothing is known of the other places.)
fn answer(responses: &mut [u32], job: u32, response: Ticks)
    ensures { responses.new ≡ slice_set responses.old job response.0 }
{
    let place = job as usize;
    if place < responses.len() {
        responses[place] = response.0;
    }
}

// Those who sit work for one tick. A job with none left has its response, in the place of its release.
fn work(run: &mut RunState, speeds: &[Speed], responses: &mut [u32], time: Ticks)
    requires seats { EachIndex run.old.table (λ k. slice_index run.old.table k ≤ length run.old.left) }
    requires few { length speeds.now ≤ 8 }
    requires horizon { time.0 ≤ 1000000 }
    ensures { Worked speeds.now time.0 run.old responses.old run.new responses.new }
{
    // The eight seats are copied: while they are borrowed from the state, the proof does not see the state that is written whole.
    let seats = run.table;
    for (speed, seat) in speeds.iter().zip(seats.iter()) {
        let Some(place) = seat.checked_sub(1) else {
            continue;
        };
        let place = place as usize;
        let left = run.left[place].less(speed.over(Ticks(1)));
        run.left[place] = left;
        if left == Units(0) {
            answer(responses, run.job[place], run.since[place].through(time));
        }
    }
}

// One tick: the releases, the seats, and the work of those who sit; or the release that met an unfinished job, and then
// nothing is changed. The state is one local, so it is copied once on the way in and once on the way out, whoever calls.
pub fn tick(
    start: RunState,
    speeds: &[Speed],
    releases: &[Release],
    places: &mut [u32],
    time: Ticks,
) -> Result<RunState, Overrun>
    requires standing { Standing speeds.now releases.now time.0 start places.old }
    ensures { Ticked speeds.now releases.now time.0 start places.old result places.new }
{
    let mut run = start;
    release_due(&mut run, releases, time)?;
    run.table = dispatch(&run.left, speeds.len());
    work(&mut run, speeds, &mut places[..releases.len()], time);
    Ok(run)
}

// The same over a run state that is lent: it moves on by one tick where it stands, or stays as it was. By a rule of the project
// it is thin, and stands over the tick by value.
pub fn step(
    run: &mut RunState,
    speeds: &[Speed],
    releases: &[Release],
    places: &mut [u32],
    time: Ticks,
) -> Result<(), Overrun>
    requires standing { Standing speeds.now releases.now time.0 run.old places.old }
    ensures ticked { Ticked speeds.now releases.now time.0 run.old places.old (stepped result run.new) places.new }
    ensures kept { OnErr result (run.new ≡ run.old) }
{
    *run = tick(*run, speeds, releases, places, time)?;
    Ok(())
}
