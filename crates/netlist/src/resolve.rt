// Names to numbers: the operands of gates and the outputs. The check proves that `as` loses no bit, so that `try_from` with its
// `unwrap` would be no plainer.
ghost use Rattle.std.specs.Prelude.{◌≡◌, ◌+◌, ◌≤◌, length, vec_len, vec_capacity};
ghost use Rattle.grammar.specs.Rules.{nets};
ghost use Rattle.bench.specs.Statements.{said};
ghost use Rattle.text.specs.Tokens.{names_left};
ghost use Rattle.netlist.specs.Accepted.{declared_in};
ghost use Rattle.netlist.specs.Resolved.{Numbers, Resolves};
ghost use Rattle.netlist.specs.Laid.{Fits, LaysOne, LaysOut, ListsOut};
ghost use Rattle.netlist.specs.Building.{ResolvesAll};

use crate::accepted::Accepted;
use crate::fault::LoadFault;
use crate::tables::Tables;
use bench::limits::OUTPUTS;
use bench::statement::{Declaration, Statement};
use circuit::net::Net;
use std::alloc::Global;
use text::cursor::Cursor;

// The number of the net with a name, or the fault that it is to be refused for.
fn number_of(text: Accepted<'_, '_>, name: &[u8], undefined: LoadFault) -> Result<u16, LoadFault>
    ensures { Numbers (nets (declared_in text.entry)) name.now undefined result }
{
    let net = text.declarations.find_net(name).ok_or(undefined)?;
    Ok(net as u16)
}

// The numbers of the nets that a gate reads, behind those of the gates before it.
fn resolve_operands(
    text: Accepted<'_, '_>,
    operands: Cursor<'_>,
    undefined: LoadFault,
    pins: &mut Vec<u16>,
) -> Result<(), LoadFault>
    requires { vec_len pins.old + length (names_left operands) ≤ vec_capacity pins.old }
    ensures resolves { Resolves (nets (declared_in text.entry)) (names_left operands.entry) undefined pins.old.items pins.new.items result }
    ensures capacity { vec_capacity pins.new ≡ vec_capacity pins.old }
{
    for operand in operands.names() {
        pins.push_reserved(number_of(text, operand.bytes, undefined)?);
    }
    Ok(())
}

// One declaration more behind the nets before it.
fn lay_one(
    text: Accepted<'_, '_>,
    declaration: Declaration<'_>,
    tables: &mut Tables,
) -> Result<(), LoadFault>
    requires { Fits tables.old (said declaration.says) }
    ensures { LaysOne (nets (declared_in text.entry)) declaration.entry tables.old tables.new result }
{
    match declaration.says {
        Statement::Input(name) => {
            let net = Net::Input(tables.inputs as u16);
            tables.push(name.bytes, declaration.line, net);
            tables.inputs += 1;
        }
        Statement::Output(_) => {}
        Statement::Gate(name, kind, operands) => {
            let undefined = LoadFault::UndefinedOperand(declaration.line);
            let first = tables.pins.len();
            resolve_operands(text, operands, undefined, &mut tables.pins)?;
            let count = tables.pins.len() - first;
            let net = Net::Gate(kind, first as u16, count as u16);
            tables.push(name.bytes, declaration.line, net);
        }
    }
    Ok(())
}

// All nets and pins; or the first gate line with an operand that is not defined.
fn lay_out(heap: Global, text: Accepted<'_, '_>) -> Result<Tables, LoadFault>
    ensures { LaysOut (declared_in text.entry) result }
{
    let mut tables = Tables::new(heap)?;
    for declaration in text.declarations.list() {
        lay_one(text, *declaration, &mut tables)?;
    }
    Ok(tables)
}

// The numbers of all outputs; or the first OUTPUT line with a name that is not defined.
fn list_outputs(heap: Global, text: Accepted<'_, '_>) -> Result<Vec<u16>, LoadFault>
    ensures { ListsOut (declared_in text.entry) result }
{
    let mut outputs = Vec::with_capacity(heap, OUTPUTS)?;
    for declaration in text.declarations.list() {
        if let Some(name) = declaration.says.lists() {
            let undefined = LoadFault::UndefinedOutput(declaration.line);
            outputs.push_reserved(number_of(text, name.bytes, undefined)?);
        }
    }
    Ok(outputs)
}

// The tables, and the net of each output.
#[derive(Debug, Drop)]
pub struct Parts {
    pub tables: Tables,
    pub outputs: Vec<u16>,
}

// Names to numbers for all declarations of a text.
pub(crate) fn resolve(heap: Global, text: Accepted<'_, '_>) -> Result<Parts, LoadFault>
    ensures { ResolvesAll (declared_in text.entry) result }
{
    let tables = lay_out(heap, text)?;
    let outputs = list_outputs(heap, text)?;
    if tables.inputs == 0 || outputs.is_empty() {
        return Err(LoadFault::NoPort);
    }
    Ok(Parts { tables, outputs })
}
