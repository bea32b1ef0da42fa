//! How acts on the outside follow one another.

ghost use Rattle.std.specs.Prelude.{List, [], ◌++◌};
ghost use Rattle.host_port.specs.Act.{Act};
ghost use Rattle.host_port.specs.Outside.{Outside, Did};

/// Nothing is done between a moment and itself, and acts that follow one another are done together.
pub fn acts_follow()
    ensures nothing { (x : Outside) → Did [] x x }
    ensures together { (front back : List Act) (x y z : Outside) →
        Did front x y → Did back y z → Did (front ++ back) x z }
{}
