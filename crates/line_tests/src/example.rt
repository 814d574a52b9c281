// What the rules say, worked out.
ghost use Rattle.line.specs.Examples.{TurnsExample};

// Four clients in turn: 2 and 0 wait and are taken as 0, 2; then 1 and 3 come and are taken as 3, 1.
pub fn round_robin()
    ensures { TurnsExample }
{}
