// What a run comes to.

ghost use Rattle.std.specs.Prelude.{◌≡◌};
ghost use Rattle.flow_sweep.specs.Sweeps.{is_find};

use flow_base::name::Name;

/// How a run ends that monitors hear: the one of this name said Stop in an event that wasn't spent; an event was spent; as many
/// events as the bound have run; or nothing is left that could come.
#[derive(Drop)]
pub enum Ended {
    Stopped(Name),
    Spent,
    Bound,
    Idle,
}

/// A run that was made: how it ended, how many events it had, and of each thing that is looked for whether its lines show it.
#[derive(Drop)]
pub struct Ran {
    pub ended: Ended,
    pub events: u64,
    pub shown: Vec<bool>,
}

impl Ended {
    /// Whether such a run is told: it was stopped, or an event was spent.
    pub fn is_find(&self) -> bool
        ensures { result ≡ is_find self.now }
    {
        match self {
            Ended::Stopped(_) | Ended::Spent => true,
            Ended::Bound | Ended::Idle => false,
        }
    }
}
