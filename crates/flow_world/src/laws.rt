// Laws of what is outside.

ghost use Rattle.flow_meaning.specs.Outside.{Outside};
ghost use Rattle.flow_world.specs.Changes.{Surroundings};
ghost use Rattle.flow_world.specs.Laws.{WordDrawn, TimerAsked, DiskAsked, PacketSent, LinkCut, LinkHealed, DiskServed, EventTaken, RequestsGone};

/// What a process asks of the world changes what is outside of it as the definitions say, and gives the same lines: a word is
/// drawn; a timer, a packet and a request to a disk become pending events.
pub fn requests_shown()
    ensures drawn { (m : Surroundings) (w : Outside) → WordDrawn m w }
    ensures timer { (m : Surroundings) (w : Outside) → TimerAsked m w }
    ensures packet { (m : Surroundings) (w : Outside) → PacketSent m w }
    ensures disk { (m : Surroundings) (w : Outside) → DiskAsked m w }
{}

/// And so does what an event does to it: a link is cut or heals, a disk serves a request, the event itself is taken from those
/// that are pending, and the timers and disk requests of a process are gone.
pub fn events_shown()
    ensures cut { (m : Surroundings) (w : Outside) → LinkCut m w }
    ensures healed { (m : Surroundings) (w : Outside) → LinkHealed m w }
    ensures served { (m : Surroundings) (w : Outside) → DiskServed m w }
    ensures taken { (m : Surroundings) (w : Outside) → EventTaken m w }
    ensures gone { (m : Surroundings) (w : Outside) → RequestsGone m w }
{}
