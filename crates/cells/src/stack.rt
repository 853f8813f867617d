ghost use Rattle.std.specs.Prelude.{◌≤◌, length};

use model::full::Full;

// The first `len` cells are held, the newest last; the cells behind them are free.
// No `Vec`: the caller lends the memory, and a stack holds elements of every kind.
#[derive(Drop)]
pub struct Stack<'a, T: Copy> {
    cells: &'a mut [T],
    len: usize,
    ghost fits: { len ≤ length cells.now },
}

impl<'a, T: Copy> Stack<'a, T> {
    ghost use Rattle.std.specs.Prelude.{◌≡◌, length, ◌==◌};
    ghost use Rattle.cells.specs.Stacks.{held, Opened, Pushed, Popped, Topped};

    pub fn over(cells: &'a mut [T]) -> Stack<'a, T>
        ensures { Opened cells.old result }
    {
        Stack { cells, len: 0 }
    }

    pub fn len(&self) -> usize
        ensures { result ≡ length (held self.now) }
    {
        self.len // and not the room, which is self.cells.len()
    }

    pub fn is_empty(&self) -> bool
        ensures { result ≡ (length (held self.now) == 0) }
    {
        self.len() == 0
    }

    // The newest element, which stays.
    pub fn top(&self) -> Option<T>
        ensures { Topped self.now result }
    {
        self.cells[..self.len].last().copied()
    }

    pub fn push(&mut self, x: T) -> Result<(), Full>
        ensures { Pushed self.old x result self.new }
    {
        if self.len >= self.cells.len() {
            return Err(Full);
        }
        self.cells[self.len] = x;
        self.len += 1;
        Ok(())
    }

    // Takes the newest element.
    pub fn pop(&mut self) -> Option<T>
        ensures { Popped self.old result self.new }
    {
        self.len = self.len.checked_sub(1)?;
        Some(self.cells[self.len])
    }
}
