// What the definitions say of plain data.

ghost use Rattle.flow_simdisk.specs.Stored.{StandInOrder};

/// A disk that is restored from the state of another is equal to it: files whose names rise, as those of a state do,
/// stand in their places.
pub fn restored()
    ensures { StandInOrder }
{}
