// Which netlist the declarations of a text stand for: definitions and theorems. The one function carries the theorems
// for a caller's contract.
#![tactic(auto)]

ghost use Rattle.elaborate.specs.Values.{DeclarationsStand};
ghost use Rattle.elaborate.specs.Whole.{OneAnswer};

// Each name has the value that its line says, and only that; and the whole is refused in at most one way.
pub fn declarations_stand()
    ensures values { DeclarationsStand }
    ensures answers { OneAnswer }
{}
