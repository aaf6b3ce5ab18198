ghost use Rattle.round_trip.specs.Examples.{WrittenLadder};
ghost use Rattle.round_trip.specs.Laws.{RoundTrip};

// A lawful page whose lines and whose job are not too long is read back whole.
pub fn pages_stand()
    ensures { RoundTrip }
{}

// The ladder page is written as its example says.
pub fn example_stands()
    ensures { WrittenLadder }
{}
