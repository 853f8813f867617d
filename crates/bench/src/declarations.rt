// The declarations so far, in line order, with the names that they define and list.
ghost use Rattle.std.specs.Prelude.{◌≡◌, ◌+◌, ◌<◌, ◌≤◌, false, [], ◌∷◌, ◌++◌, map, length, vec_capacity, IfOk, Decides, MatchResult};
ghost use Rattle.names.specs.Tables.{LastPlace, held};
ghost use Rattle.grammar.specs.Rules.{nets as net_names, inputs as input_names, outputs as output_names, pins as pin_names, Redefines, Relists, is_too_many};
ghost use Rattle.grammar.specs.Reading.{OneReading, OneStatement, Reads};
ghost use Rattle.grammar.specs.Proper.{ProperStatement, Proper};
ghost use Rattle.text.specs.declared.fault.TextFault.TheVariants.{TooLong};
ghost use Rattle.bench.specs.Statements.{declaration, said, names_in, AllStand, Holds};
ghost use Rattle.grammar.proofs.Props.{Proper-prop};

use crate::fault::StatementFault;
use crate::limits::{DECLARATIONS, INPUTS, NETS, OUTPUTS, PINS, TEXT_BYTES};
use crate::statement::{Declaration, Statement, read_statement};
use model::counts::Counts;
use names::name::Name;
use names::table::Names;
use std::alloc::{AllocError, Global};
use text::fault::TextFault;
use text::reader::{Line, Reader};

#[derive(Debug, Drop)]
pub struct Declarations<'a> {
    list: Vec<Declaration<'a>>,
    nets: Names<'a>,
    outputs: Names<'a>,
    inputs: usize,
    pins: usize,
    ghost room: { 2112 ≤ vec_capacity list },
    ghost net_room: { nets.most ≡ 2048 },
    ghost output_room: { outputs.most ≡ 64 },
    ghost nets_are: { held nets ≡ net_names (map declaration list.items) },
    ghost outputs_are: { held outputs ≡ output_names (map declaration list.items) },
    ghost inputs_are: { inputs ≡ length (input_names (map declaration list.items)) },
    ghost pins_are: { pins ≡ length (pin_names (map declaration list.items)) },
    ghost within: { is_too_many (map declaration list.items) ≡ false },
    ghost proper: { Proper (map declaration list.items) } by { Proper-prop (map declaration list.items) },
}

fn check_length(text: &[u8]) -> Result<(), TextFault>
    ensures { MatchResult result (λ _. length text.now ≤ 65536) (λ e. (e ≡ TooLong) × (65536 < length text.now)) }
{
    if text.len() > TEXT_BYTES {
        return Err(TextFault::TooLong);
    }
    Ok(())
}

// Whether a name, where there is one, stands in a table.
fn holds(names: &Names<'_>, name: Option<Name<'_>>) -> bool
    ensures { Decides result (Holds (held names.now) name.entry) }
{
    match name {
        Some(name) => names.find(name.bytes).is_some(),
        None => false,
    }
}

// A name more, where there is one.
fn add<'a>(names: &mut Names<'a>, name: Option<Name<'a>>)
    requires { length (held names.old) + length (names_in name) ≤ names.old.most }
    ensures held { held names.new ≡ held names.old ++ names_in name.entry }
    ensures most { names.new.most ≡ names.old.most }
{
    if let Some(name) = name {
        names.add(name).unwrap();
    }
}

impl<'a> Declarations<'a> {
    ghost use Rattle.bench.specs.SoFar.{items, declared, counts_of, Grows, Declares, ReadsLine, answer};

    // No declaration, with memory for as many as the limits allow.
    pub fn new(heap: Global) -> Result<Declarations<'a>, AllocError>
        ensures { IfOk result (λ d. declared d ≡ []) }
    {
        let list = Vec::with_capacity(heap, DECLARATIONS)?;
        let nets = Names::new(heap, NETS as u16)?;
        let outputs = Names::new(heap, OUTPUTS as u16)?;
        Ok(Declarations {
            list,
            nets,
            outputs,
            inputs: 0,
            pins: 0,
        })
    }

    // The statements with their lines, in line order.
    pub fn list(&self) -> &[Declaration<'a>]
        ensures { result.now ≡ items self.now }
    {
        self.list.as_slice()
    }

    pub fn counts(&self) -> Counts
        ensures { result ≡ counts_of (declared self.now) }
    {
        Counts {
            nets: self.nets.len(),
            inputs: self.inputs,
            outputs: self.outputs.len(),
            pins: self.pins,
        }
    }

    // The number of the net with a name.
    pub fn find_net(&self, name: &[u8]) -> Option<usize>
        ensures { LastPlace (net_names (declared self.now)) name.now result }
    {
        self.nets.find(name)
    }

    // Whether there would be too many nets, pins, inputs or outputs with one declaration more.
    fn exceeds(&self, next: Declaration<'a>) -> bool
        ensures { result ≡ is_too_many (declared self.now ++ declaration next.entry ∷ []) }
    {
        let so_far = self.counts();
        let more = next.says.counts();
        more.nets > NETS - so_far.nets
            || more.pins > PINS - so_far.pins
            || more.inputs > INPUTS - so_far.inputs
            || more.outputs > OUTPUTS - so_far.outputs
    }

    // One declaration more, for which there is room.
    fn note(&mut self, next: Declaration<'a>)
        requires proper { ProperStatement (said next.says) }
        requires new { Redefines (declared self.old) (said next.says) → ⊥ }
        requires room { is_too_many (declared self.old ++ declaration next ∷ []) ≡ false }
        ensures { Grows self.old next.entry.line next.entry.says self.new }
    {
        let more = next.says.counts();
        add(&mut self.nets, next.says.defines());
        add(&mut self.outputs, next.says.lists());
        self.inputs += more.inputs;
        self.pins += more.pins;
        self.list.push_reserved(next);
    }

    // One declaration more, or the smallest of the refusals 7 to 9 that holds.
    fn declare(&mut self, next: Declaration<'a>) -> Result<(), StatementFault>
        requires { ProperStatement (said next.says) }
        ensures { Declares self.old next.entry.line next.entry.says result self.new }
    {
        if holds(&self.nets, next.says.defines()) {
            return Err(StatementFault::DefinedBefore(next.line));
        }
        if holds(&self.outputs, next.says.lists()) {
            return Err(StatementFault::ListedBefore(next.line));
        }
        if self.exceeds(next) {
            return Err(StatementFault::BeyondLimit(next.line));
        }
        self.note(next);
        Ok(())
    }

    fn read_line(&mut self, line: Line<'a>) -> Result<(), StatementFault>
        ensures { ReadsLine self.old line.entry result self.new }
    {
        match read_statement(line)? {
            None => Ok(()),
            Some(says) => self.declare(Declaration {
                line: line.number,
                says,
            }),
        }
    }

    // Reads a whole text behind the declarations so far, up to its end or to the first refusal.
    #[tactic(auto, using(grammar::proofs::Once::one_statement, grammar::proofs::Once::one_reading))]
    pub fn read(&mut self, text: &'a [u8]) -> Result<(), StatementFault>
        ensures reads { Reads text.now (declared self.old) (answer result) (declared self.new) }
        ensures places { AllStand text.now (items self.old) → AllStand text.now (items self.new) }
        ensures one_statement { OneStatement }
        ensures one_reading { OneReading }
    {
        check_length(text)?;
        for line in Reader::new(text) {
            self.read_line(line)?;
        }
        Ok(())
    }
}
