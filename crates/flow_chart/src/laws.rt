// What holds of pictures.

ghost use Rattle.flow_chart.specs.Laws.{OneArrow, OneStub, HasRoom, IsWellFormed};

/// Of lines of which just two tell of a packet, one that it is sent and then one that it comes or is lost, the drawing has one way of
/// the packet: an arrow from the row in which it was sent to the row in which it comes, or a stub.
pub fn one_way_each()
    ensures arrow { OneArrow }
    ensures stub { OneStub }
{}

/// Lines are drawn exactly where there are at most `MOST_EVENTS` events among them.
pub fn room_for_events()
    ensures { HasRoom }
{}

/// Each picture has the grammar of pictures, whatever texts stand in it.
pub fn well_formed_pictures()
    ensures { IsWellFormed }
{}
