// Declarations as a load goes through them: those of an accepted text, whose lines rise.
ghost use Rattle.elaborate.specs.Whole.{Rising};
ghost use Rattle.bench.specs.SoFar.{declared};
ghost use Rattle.std.proofs.Props.{props};

use bench::declarations::Declarations;

// The first line that breaks a rule is the smallest, since they rise.
#[derive(Clone, Copy, Debug)]
pub(crate) struct Accepted<'d, 'a> {
    pub declarations: &'d Declarations<'a>,
    ghost rising: { Rising (declared declarations.now) } by { Prim.hlevel props },
}
