// Events that run without a line.

ghost use Rattle.std.specs.Prelude.{◌≡◌, false, None, IfOk, IfErr, IsErrOf};
ghost use Rattle.flow_machine.specs.declared.host.RunFault.TheVariants.{Failed};
ghost use Rattle.flow_world.specs.Skipping.{SkipsUpTo, SkipFails};
ghost use Rattle.flow_world.specs.Worlds.{world_seen};

use crate::ending::Ending;
use crate::event::Event;
use crate::silence::Silence;
use crate::world::World;
use flow_machine::host::RunFault;

impl World {
    /// Runs so many events, or all up to the end of the run where that comes first, and puts no line of them. It answers how the
    /// run ended, or none where all of these events ran. A fault comes where an event breaks off: `OutOfMemory` where there is no
    /// memory, and where it is past the last time.
    pub fn run_events(&mut self, most: u32) -> Result<Option<Ending>, RunFault>
        requires { self.old.ended ≡ false }
        ensures skips { IfOk result (λ e. SkipsUpTo most (world_seen self.old) e (world_seen self.new)) }
        ensures going { IfOk result (λ e. e ≡ None → self.new.ended ≡ false) }
        ensures fails { IfErr result (λ f. SkipFails most (world_seen self.old) f) }
        ensures never { ¬ IsErrOf result Failed }
    {
        let mut silence = Silence;
        for _done in 0..most {
            match self.next_event(&mut silence)? {
                Event::Ran => {}
                Event::Idle => return Ok(Some(Ending::Idle)),
                Event::BoundReached => return Ok(Some(Ending::Bound)),
                Event::Spent => return Ok(Some(Ending::Spent)),
                // Nobody hears its lines, so that none is stopped.
                Event::Stopped(_) => return Err(RunFault::Stuck),
            }
        }
        Ok(None)
    }
}
