// The kinds of gates.
ghost use Rattle.std.specs.Prelude.{◌≡◌};
ghost use Rattle.model.specs.Kinds.{takes, Spelled};

#[derive(Clone, Copy, Debug, PartialEq, Eq)]
pub enum Kind {
    And,
    Nand,
    Or,
    Nor,
    Xor,
    Xnor,
    Not,
    Buff,
}

// A word that is written for no kind.
#[derive(Clone, Copy, Debug, PartialEq, Eq)]
pub struct UnknownKind;

impl Kind {
    // Whether a gate of this kind may have so many operands.
    pub fn takes(self, operands: usize) -> bool
        ensures { result ≡ takes self operands }
    {
        match self {
            Kind::Not | Kind::Buff => operands == 1,
            _ => (2..=16).contains(&operands),
        }
    }
}

// The kind that a word is written for.
impl TryFrom<&[u8]> for Kind {
    type Error = UnknownKind;

    ghost try_from_gives = { λ word r. Spelled word.now r };

    fn try_from(word: &[u8]) -> Result<Kind, UnknownKind> {
        match word {
            b"AND" => Ok(Kind::And),
            b"NAND" => Ok(Kind::Nand),
            b"OR" => Ok(Kind::Or),
            b"NOR" => Ok(Kind::Nor),
            b"XOR" => Ok(Kind::Xor),
            b"XNOR" => Ok(Kind::Xnor),
            b"NOT" => Ok(Kind::Not),
            b"BUFF" => Ok(Kind::Buff),
            _ => Err(UnknownKind),
        }
    }
}
