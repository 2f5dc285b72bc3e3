// The ticks of a run.
ghost use Rattle.run.specs.Going.{Ready, Went};

use quantity::{Speed, Ticks};
use releases::Release;
use scheduler::Overrun;

// Ticks 0 to horizon - 1: who sat where in the last of them. Or the release that met an unfinished job.
pub fn ticks(
    speeds: &[Speed],
    releases: &[Release],
    horizon: Ticks,
    places: &mut [u32],
) -> Result<[u32; 8], Overrun>
    requires { Ready speeds.now releases.now horizon.0 places.old }
    ensures { Went speeds.now releases.now horizon.0 places.old result places.new }
{
    let mut run = scheduler::fresh();
    for tick in 0..horizon.0 {
        scheduler::step(&mut run, speeds, releases, places, Ticks(tick))?;
    }
    Ok(run.table)
}
