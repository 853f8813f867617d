// What is refused: a number, the line that it is about (0 for none) and the layer that refuses.
ghost use Rattle.std.specs.Prelude.{◌≡◌};
ghost use Rattle.model.specs.Refusals.{layer_of, refusal};

#[derive(Clone, Copy, Debug, PartialEq, Eq)]
pub enum Layer {
    Host,
    Text,
    Statement,
    Netlist,
}

impl Layer {
    // The layer that refuses with a number.
    pub fn of(number: u8) -> Layer
        ensures { result ≡ layer_of number }
    {
        match number {
            0..=1 => Layer::Host,
            2..=4 => Layer::Text,
            5..=9 => Layer::Statement,
            _ => Layer::Netlist,
        }
    }
}

// The number stays one, and so does a line of 0: they are printed, and told by these numbers in docs/BENCH-TEXT.md.
#[derive(Clone, Copy, Debug, PartialEq, Eq)]
pub struct Refusal {
    pub number: u8,
    pub line: usize,
    pub layer: Layer,
}

impl Refusal {
    // With the layer that refuses with this number.
    pub fn new(number: u8, line: usize) -> Refusal
        ensures { result ≡ refusal number line }
    {
        Refusal {
            number,
            line,
            layer: Layer::of(number),
        }
    }
}
