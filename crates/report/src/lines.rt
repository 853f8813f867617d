// The lines, a call for each.
ghost use Rattle.std.specs.Prelude.{◌≡◌};
ghost use Rattle.report.specs.Lines.{layer_word_of, refusal_line_of, counts_line_of};
ghost use Rattle.report.specs.Outcome.{Written};

use crate::line::write;
use crate::short::ShortBuffer;
use itoa::Buffer;
use model::counts::Counts;
use model::refusal::{Layer, Refusal};

// A piece of a line, and so a text and no `Display`.
fn layer_word(layer: Layer) -> &'static str
    ensures { result.now ≡ layer_word_of layer }
{
    match layer {
        Layer::Host => "host",
        Layer::Text => "text",
        Layer::Statement => "statement",
        Layer::Netlist => "netlist",
    }
}

pub fn refusal_line(out: &mut [u8], refusal: Refusal) -> Result<usize, ShortBuffer>
    ensures { Written (refusal_line_of refusal) out.old result out.new }
{
    let mut number = Buffer::new();
    let mut line = Buffer::new();
    write(
        out,
        &[
            "refused ",
            number.format(refusal.number),
            " line ",
            line.format(refusal.line),
            " ",
            layer_word(refusal.layer),
            "\n",
        ],
    )
}

pub fn counts_line(out: &mut [u8], counts: Counts) -> Result<usize, ShortBuffer>
    ensures { Written (counts_line_of counts) out.old result out.new }
{
    let mut nets = Buffer::new();
    let mut inputs = Buffer::new();
    let mut outputs = Buffer::new();
    let mut pins = Buffer::new();
    write(
        out,
        &[
            "nets ",
            nets.format(counts.nets),
            " inputs ",
            inputs.format(counts.inputs),
            " outputs ",
            outputs.format(counts.outputs),
            " pins ",
            pins.format(counts.pins),
            "\n",
        ],
    )
}
