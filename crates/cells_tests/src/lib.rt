// Tests of the stack, at net numbers and at a record. Their own crate, since a crate with tests is proved twice.
#![tactic(auto)]

ghost use Rattle.std.specs.Prelude.{◌≡◌, [], length};
ghost use Rattle.cells.specs.Stacks.{held};

use cells::stack::Stack;

#[derive(Clone, Copy, Debug, PartialEq, Eq)]
pub struct Step {
    pub net: u16,
    pub reader: u16,
}

// Empties the stack, and says how many elements it took.
pub fn drain(stack: &mut Stack<'_, u16>) -> usize
    ensures emptied { held stack.new ≡ [] }
    ensures taken { result ≡ length (held stack.old) }
{
    let taken = stack.len();
    while let Some(_) = stack.pop() {}
    taken
}

#[cfg(test)]
mod tests {
    use super::*;
    use model::full::Full;

    #[test]
    fn newest_comes_first(rt: HostRuntime) {
        let mut cells = [0u16; 3];
        let mut stack = Stack::over(&mut cells);
        assert_eq!(rt; stack.push(7), Ok(()));
        assert_eq!(rt; stack.push(9), Ok(()));
        assert_eq!(rt; stack.top(), Some(9));
        assert_eq!(rt; stack.pop(), Some(9));
        assert_eq!(rt; stack.pop(), Some(7));
        assert_eq!(rt; stack.pop(), None);
    }

    #[test]
    fn full_keeps_what_it_holds(rt: HostRuntime) {
        let mut cells = [Step { net: 0, reader: 0 }; 1];
        let mut stack = Stack::over(&mut cells);
        assert_eq!(rt; stack.push(Step { net: 4, reader: 1 }), Ok(()));
        assert_eq!(rt; stack.push(Step { net: 5, reader: 2 }), Err(Full));
        assert_eq!(rt; stack.pop(), Some(Step { net: 4, reader: 1 }));
        assert!(rt; stack.is_empty());
    }

    #[test]
    fn drained_is_empty(rt: HostRuntime) {
        let mut cells = [0u16; 4];
        let mut stack = Stack::over(&mut cells);
        assert_eq!(rt; stack.push(1), Ok(()));
        assert_eq!(rt; stack.push(2), Ok(()));
        assert_eq!(rt; drain(&mut stack), 2);
        assert!(rt; stack.is_empty());
    }
}
