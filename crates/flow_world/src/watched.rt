// Lines that monitors hear as they are put, and the next event of a world so heard.

ghost use Rattle.std.specs.Prelude.{◌≡◌, ℕ, ◌<◌, List, false, length, Some, IfOk, IfErr, IsErrOf};
ghost use Rattle.std.specs.declared.option.Option.{Option};
ghost use Rattle.flow_base.specs.declared.fault.OutFault.{OutFault as Fault};
ghost use Rattle.std.specs.Borrow.{GName};
ghost use Rattle.std.proofs.Props.{props};
ghost use Rattle.flow_monitor.specs.Ears.{names};
ghost use Rattle.flow_machine.specs.Cause.{RunCause};
ghost use Rattle.flow_machine.specs.declared.host.RunFault.TheVariants.{Failed};
ghost use Rattle.flow_world.specs.Ending.{MeansEvent};
ghost use Rattle.flow_world.specs.FaultedLines.{tells, telling, whole, failed};
ghost use Rattle.flow_world.specs.Happening.{Breaks};
ghost use Rattle.flow_world.specs.BreakingEvents.{EventFails};
ghost use Rattle.flow_world.specs.Watching.{hearing, watching, first_of, hears, EventHeard, IsPlace, answer_heard, world_heard};
ghost use Rattle.flow_world.specs.Worlds.{world_seen};

use crate::event::Event;
use crate::world::World;
use flow_base::fault::OutFault;
use flow_machine::host::RunFault;
use flow_monitor::Audience;
use flow_monitor::heard::is_heard;
use flow_trace::line::Line;
use flow_trace::out::LineOut;

/// Lines that are heard as they are put: each is put first, and told to a panel where that succeeded; and who of it said
/// Stop first. Who made it takes it apart again.
pub(crate) struct Watched<'p, 'l, P: Audience, L: LineOut> {
    panel: &'p mut P,
    out: &'l mut L,
    stop: Option<usize>,
    ghost within: { (k : ℕ) → stop ≡ Some k → k < length (P.ears panel.now) } by { Prim.hlevel
        props },
}

fn first_of(first: Option<usize>, later: Option<usize>) -> Option<usize>
    ensures { result ≡ first_of first later }
{
    match first {
        Some(k) => Some(k),
        None => later,
    }
}

impl<'p, 'l, P: Audience, L: LineOut> LineOut for Watched<'p, 'l, P, L> {
    ghost puts = { λ old line answer new. hears L.puts
        (hearing old.out.now (P.ears old.panel.now) old.stop) line answer
        (hearing new.out.now (P.ears new.panel.now) new.stop) };

    ghost faults = { λ w. L.faults w.out.now };

    ghost Kept = { GName × GName × L.Kept × List (List ℕ) };

    ghost kept = { λ w. (
      w.panel.ghost_name,
      w.out.ghost_name,
      L.kept w.out.now,
      names (P.ears w.panel.now),
    ) };

    fn put(&mut self, line: &Line) -> Result<(), OutFault> {
        self.out.put(line)?;
        if is_heard(line) {
            let stop = self.panel.hear(line);
            self.stop = first_of(self.stop, stop);
        }
        Ok(())
    }

    fn faults(&self) -> u64 {
        self.out.faults()
    }
}

impl World {
    // Where a monitor said Stop in an event that ran, it is stopped, and none may follow.
    fn settle(&mut self, event: Event, stop: Option<usize>) -> Event
        ensures event { result ≡ answer_heard event stop }
        ensures world { world_seen self.new ≡ world_heard event stop (world_seen self.old) }
    {
        match (event, stop) {
            (Event::Ran, Some(k)) => {
                self.end();
                Event::Stopped(k)
            }
            _ => event,
        }
    }

    /// Runs the next event, puts its lines, and tells each that was put to the panel. With no event pending and no line of
    /// the script left it is idle, and else, with as many events run as the bound, the bound is reached; neither puts a line,
    /// and both are answered again. Where a monitor says Stop in an event that isn't spent, the event goes on to its end, and
    /// it is stopped by the first that did. Where a put fails the event goes on to its end, with no line more, and then that
    /// fault is answered. Where there is no memory it breaks off, and a first part of its lines was put; so it is past the last
    /// time, which is answered as want of memory.
    pub fn event<P: Audience, L: LineOut>(
        &mut self,
        panel: &mut P,
        out: &mut L,
    ) -> Result<Event, RunFault>
        requires { self.old.ended ≡ false }
        ensures means { MeansEvent (world_seen self.old) result (world_seen self.new) }
        ensures does { IfOk result (λ e. (stop : Option ℕ) × EventHeard L.puts e (world_seen self.old)
            (watching out.old (P.ears panel.old)) (world_seen self.new)
            (hearing out.new (P.ears panel.new) stop)) }
        ensures place { IfOk result (λ e. IsPlace e (length (P.ears panel.new))) }
        ensures breaks { IsErrOf result Failed → (stop : Option ℕ) × Breaks (tells (hears L.puts))
            (world_seen self.old) (whole (watching out.old (P.ears panel.old)))
            (world_seen self.new) (failed (hearing out.new (P.ears panel.new) stop)) }
        ensures fails { IfErr result (λ f. (stop : Option ℕ) × (fault : Option Fault)
            × EventFails (hears L.puts) (world_seen self.old)
            (whole (watching out.old (P.ears panel.old))) f
            (telling (hearing out.new (P.ears panel.new) stop) fault)) }
        ensures cause { RunCause (L.faults out.old) (L.faults out.new) result }
        ensures kept { L.kept out.new ≡ L.kept out.old }
        ensures names { names (P.ears panel.new) ≡ names (P.ears panel.old) }
    {
        let mut watched = Watched {
            panel,
            out,
            stop: None,
        };
        let event = self.next_event(&mut watched);
        let Watched { panel, out, stop } = watched;
        // No effect at run time. The proof reads what they are from these uses of them.
        let _ = &*panel;
        let _ = &*out;
        Ok(self.settle(event?, stop))
    }
}
