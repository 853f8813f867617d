// A statement whose kind and count of operands are right, and a statement with the number of its line.
ghost use Rattle.std.specs.Prelude.{◌≡◌};
ghost use Rattle.bench.specs.Statements.{StatementReads};

use crate::fault::StatementFault;
use model::counts::Counts;
use model::kind::Kind;
use names::name::Name;
use text::cursor::Cursor;
use text::reader::Line;
use text::shape::{Shape, read_text};

// A gate has its net, its kind, and a window that hands out its operands.
#[derive(Clone, Copy, Debug, PartialEq, Eq)]
pub enum Statement<'a> {
    Input(Name<'a>),
    Output(Name<'a>),
    Gate(Name<'a>, Kind, Cursor<'a>),
}

#[derive(Clone, Copy, Debug, PartialEq, Eq)]
pub struct Declaration<'a> {
    pub line: usize,
    pub says: Statement<'a>,
}

impl<'a> Statement<'a> {
    ghost use Rattle.grammar.specs.Rules.{net_of, output_of};
    ghost use Rattle.bench.specs.Statements.{said, names_in, net_name, output_name, size_of};

    // The net that it defines.
    pub fn defines(self) -> Option<Name<'a>>
        ensures name { result ≡ net_name self.entry }
        ensures net { names_in result ≡ net_of (said self.entry) }
    {
        match self {
            Statement::Input(name) | Statement::Gate(name, _, _) => Some(name),
            Statement::Output(_) => None,
        }
    }

    // The net that it lists as an output.
    pub fn lists(self) -> Option<Name<'a>>
        ensures name { result ≡ output_name self.entry }
        ensures output { names_in result ≡ output_of (said self.entry) }
    {
        match self {
            Statement::Output(name) => Some(name),
            Statement::Input(_) | Statement::Gate(_, _, _) => None,
        }
    }

    // How many nets, inputs, outputs and pins it adds.
    pub fn counts(self) -> Counts
        ensures { result ≡ size_of (said self.entry) }
    {
        Counts {
            nets: usize::from(self.defines().is_some()),
            inputs: usize::from(matches!(self, Statement::Input(_))),
            outputs: usize::from(self.lists().is_some()),
            pins: match self {
                Statement::Gate(_, _, operands) => operands.names().count(),
                _ => 0,
            },
        }
    }
}

// What a line says, with a known kind and the right count of operands.
pub fn read_statement<'a>(line: Line<'a>) -> Result<Option<Statement<'a>>, StatementFault>
    ensures { StatementReads line.entry result }
{
    let Some(shape) = read_text(line)? else {
        return Ok(None);
    };
    match shape {
        Shape::Input(name) => Ok(Some(Statement::Input(name))),
        Shape::Output(name) => Ok(Some(Statement::Output(name))),
        Shape::Gate(name, word, operands) => {
            let Ok(kind) = Kind::try_from(word.bytes) else {
                return Err(StatementFault::UnknownKind(line.number));
            };
            if kind.takes(operands.names().count()) {
                Ok(Some(Statement::Gate(name, kind, operands)))
            } else {
                Err(StatementFault::OperandCount(line.number))
            }
        }
    }
}
