// A count for each process.

ghost use Rattle.std.specs.Prelude.{◌≡◌, List, get_or, replicate, set};
ghost use Rattle.std.specs.List.{sum};
ghost use Rattle.flow_monitor.specs.Shipped.{one_more, one_less};

use flow_base::ids::ProcId;

/// A count for each number of a process, up to 2^64 - 1.
#[derive(Drop)]
pub struct Counts {
    counts: [u64; 256],
    total: u128,
    ghost whole: { total ≡ sum counts },
}

// How many there are together.
fn total(counts: &[u64; 256]) -> u128
    ensures { result ≡ sum counts.now }
{
    let mut total: u128 = 0;
    for count in counts {
        total += u128::from(*count);
    }
    total
}

impl Counts {
    /// Each is 0. It takes no memory.
    pub fn new() -> Counts
        ensures { result.counts ≡ replicate 256 0 }
    {
        Counts {
            counts: [0; 256],
            total: 0,
        }
    }

    /// One more of a process.
    pub fn add(&mut self, process: ProcId)
        ensures { self.new.counts
            ≡ set self.old.counts process.0 (one_more (get_or self.old.counts process.0 0)) }
    {
        let place = usize::from(process.0);
        self.counts[place] = self.counts[place].saturating_add(1);
        self.total = total(&self.counts);
    }

    /// One less, where there is one.
    pub fn take(&mut self, process: ProcId)
        ensures { self.new.counts
            ≡ set self.old.counts process.0 (one_less (get_or self.old.counts process.0 0)) }
    {
        let place = usize::from(process.0);
        self.counts[place] = self.counts[place].saturating_sub(1);
        self.total = total(&self.counts);
    }

    /// None of a process.
    pub fn clear(&mut self, process: ProcId)
        ensures { self.new.counts ≡ set self.old.counts process.0 0 }
    {
        self.counts[usize::from(process.0)] = 0;
        self.total = total(&self.counts);
    }

    /// How many there are together.
    pub fn total(&self) -> u128
        ensures { result ≡ sum self.now.counts }
    {
        self.total
    }
}
