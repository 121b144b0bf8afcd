// What a command line comes to.

use flow_classread::fault::ClassFault;
use flow_debug::waits::WaitPlaces;
use flow_tree::decl::Program;
use flow_tree::fault::SourceFault;
use flow_valid::program::ClassProgram;
use flow_worldfile::{World0, WorldFault};
use std::snapshot::Snapshot;

/// What a command line comes to, before any of it is told.
#[derive(Drop)]
pub enum Outcome {
    /// Its text, which is known before it is told.
    Answered(Answered),
    /// Classes are run in a world, and what is shown of them is told.
    Run(ProgramRun),
    /// They are run, and a summary is told.
    Bench(BenchRun),
    /// They are run again and again, in the world and in smaller ones, and the smallest that a monitor stops is told.
    Shrink(ProgramRun),
    /// They are run up to an event, and the state of the program after it is told.
    Debug(DebugRun),
}

/// What classes mean that are run: a program, which is read by clauses alone, or themselves.
#[derive(Drop)]
pub enum Meant {
    Text(Snapshot<Program>),
    Classes,
}

/// Classes to be run, what they mean, and where the waits of the program stand, if that is asked for.
#[derive(Drop)]
pub struct Runnable {
    pub meant: Meant,
    pub classes: ClassProgram,
    pub waits: WaitPlaces,
}

/// Classes that are run in a world, whether frames are told after each event, and where the waits of the program stand, if that is asked for.
#[derive(Drop)]
pub struct ProgramRun {
    pub meant: Meant,
    pub classes: ClassProgram,
    pub world: World0,
    pub frames: bool,
    pub waits: WaitPlaces,
}

/// A run up to so many events.
#[derive(Drop)]
pub struct DebugRun {
    pub run: ProgramRun,
    pub most: u32,
}

/// A run whose summary is told, by the number of clients and the seed that it was generated of.
#[derive(Drop)]
pub struct BenchRun {
    pub run: ProgramRun,
    pub clients: u32,
    pub seed: u64,
}

/// What a command line comes to where nothing is run.
#[derive(Drop)]
pub enum Answered {
    /// The words ask for nothing that there is.
    Usage,
    /// A file couldn't be read.
    ReadFault,
    /// There was no memory.
    OutOfMemory,
    /// The program text is refused.
    Refused(SourceFault),
    /// The class text is refused.
    NoClasses(ClassFault),
    /// The world file is refused.
    NoWorld(WorldFault),
    /// The script of the world has too many lines to be made smaller.
    LongScript,
    /// The program passes all rules.
    Passed,
    /// Classes are written, as class text of the newest version.
    Printed(ClassProgram),
    /// The program is written in its canonical text.
    Formatted(Program),
}
