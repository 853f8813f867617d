// Netlists, and what their nets carry: definitions and theorems. The one type of code is what defines a net, and the one
// function carries theorems for a caller's contract.
#![tactic(auto)]

ghost use Rattle.circuit.specs.Computed.{TestsAsDefined, PassingTablesFit};
ghost use Rattle.circuit.specs.Readers.{ReadersAreThoseThatRead};

pub mod net;

// The tests that compute tell what they stand for.
pub fn tests_tell()
    ensures tests_as_defined { TestsAsDefined }
    ensures passing_tables_fit { PassingTablesFit }
    ensures readers { ReadersAreThoseThatRead }
{}
