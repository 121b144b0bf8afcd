// What words ask for.

use flow_family::Family;
use flow_monitor::Want;
use flow_storm::Storm;

/// A word that is a command.
#[derive(Clone, Copy)]
pub enum CommandWord {
    Storm,
    Sweep,
    Pin,
    Simplify,
}

/// What a command line asks for.
#[derive(Drop)]
pub enum Asked<'a> {
    /// The world of a file under a storm.
    Storm(StormWords<'a>),
    /// Runs of the program of a file in a family of worlds.
    Sweep(SweepWords<'a>),
    /// The world of a file with the words that a run of the program takes.
    Pin(PinWords<'a>),
    /// The world of a file, as simple as can be where monitors still stop the program.
    Simplify(SimplifyWords<'a>),
}

/// A storm: the file of the world, the seed, and how many faults there are, up to which time.
#[derive(Drop)]
pub struct StormWords<'a> {
    pub world: &'a str,
    pub seed: u64,
    pub storm: Storm,
}

/// What is told of a sweep: each run that is stopped or spent, and counts; besides, how many runs took each branch of the
/// program; or the first such run alone, and its world.
#[derive(Clone, Copy, PartialEq, Eq)]
pub enum Telling {
    Finds,
    Branches,
    First,
}

/// A sweep: the files of the program and of the world, the worlds in which it is run, the monitors that are wanted, with their
/// limits, and what is told.
#[derive(Drop)]
pub struct SweepWords<'a> {
    pub program: &'a str,
    pub world: &'a str,
    pub family: Family,
    pub wanted: Vec<Want>,
    pub telling: Telling,
}

/// A run whose words are listed: the files of the program and of the world.
#[derive(Drop)]
pub struct PinWords<'a> {
    pub program: &'a str,
    pub world: &'a str,
}

/// A world that is to be made simple: the files of the program and of the world, and the monitors that stop the run.
#[derive(Drop)]
pub struct SimplifyWords<'a> {
    pub program: &'a str,
    pub world: &'a str,
    pub wanted: Vec<Want>,
}
