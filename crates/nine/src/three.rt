// Three-valued logic: what one circuit carries, where X may be either bit.
ghost use Rattle.std.specs.Prelude.{◌≡◌};
ghost use Rattle.nine.specs.Three.{digit};

#[derive(Clone, Copy, Debug, PartialEq, Eq)]
pub enum Three {
    Zero,
    One,
    X,
}

// 0, 1, and 2 for X.
impl From<Three> for u8 {
    ghost from_gives = { λ bit r. r ≡ digit bit };

    fn from(bit: Three) -> u8 {
        match bit {
            Three::Zero => 0,
            Three::One => 1,
            Three::X => 2,
        }
    }
}
