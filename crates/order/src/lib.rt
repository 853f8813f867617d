// The evaluation order of a netlist, or the first net that depends on a circle: walks back from each net in line
// order, without recursion. Each net is entered once; all walks together make at most pins + 2 x nets turns.
// A number of 16 bits indexes by `as`: it always fits, so that `usize::from` would say no more at each index. Narrowed by `as`, the
// check proves that it loses no bit.
#![tactic(auto)]

ghost use Rattle.std.specs.Prelude.{◌≡◌, ℕ, ◌<◌, ◌≤◌, [], length, vec_capacity};
ghost use Rattle.walk.specs.Walks.{mark_at};
ghost use Rattle.walk.specs.declared.mark.Mark.TheVariants.{Open};
ghost use Rattle.order.specs.Cells.{cells_in};
ghost use Rattle.order.specs.Answers.{Ready, Followed, Arranged};

use cells::stack::Stack;
use gates::Gates;
use walk::mark::Mark;

pub mod gates;

// The first net, in line order, that depends on a circle: no order has it behind what it reads.
#[derive(Clone, Copy, Debug, PartialEq, Eq)]
pub struct Circle {
    pub net: u16,
}

// How many operands an open net has left to look at.
fn left_at(marks: &[Mark], net: u16) -> u16
    requires net { net < length marks.now }
    requires opened { (left : ℕ) × (mark_at marks.now net ≡ Open left) }
    ensures { mark_at marks.now net ≡ Open result }
{
    match marks[net as usize] {
        Mark::Open(left) => left,
        _ => unreachable(),
    }
}

// Follows the nets back from start until start is done or a circle is met. The path borrows the room while marks and
// order change, so a struct that holds the three would have to be taken apart here.
fn follow(
    gates: Gates<'_>,
    start: u16,
    room: &mut [u16],
    marks: &mut [Mark],
    order: &mut Vec<u16>,
) -> Result<(), Circle>
    requires { Ready gates start (length room.old) marks.old order.old.items (vec_capacity order.old) }
    ensures walk { Followed (cells_in gates.entry) start marks.old order.new.items marks.new result }
    ensures capacity { vec_capacity order.new ≡ vec_capacity order.old }
{
    let mut path = Stack::over(room);
    let mut net = start;
    marks[net as usize] = Mark::Open(gates.count(net));
    'walk: loop {
        let left = left_at(marks, net);
        if left == 0 {
            marks[net as usize] = Mark::Done;
            order.push_reserved(net);
            match path.pop() {
                None => return Ok(()),
                Some(below) => net = below,
            }
        } else {
            let read = gates.operand(net, left - 1);
            match marks[read as usize] {
                Mark::New => {
                    path.push(net).unwrap(); // each net is on the path at most once
                    marks[read as usize] = Mark::Open(gates.count(read));
                    net = read;
                }
                Mark::Open(_) => return Err(Circle { net: start }),
                Mark::Done => marks[net as usize] = Mark::Open(left - 1),
            }
        }
    }
}

// An inner call, on memory that is large enough. All nets, each behind what it reads, go to `order`.
pub fn arrange(
    gates: Gates<'_>,
    room: &mut [u16],
    marks: &mut [Mark],
    order: &mut Vec<u16>,
) -> Result<(), Circle>
    requires room { length gates.nets.now ≤ length room.old }
    requires marks { length marks.old ≡ length gates.nets.now }
    requires capacity { length gates.nets.now ≤ vec_capacity order.old }
    requires empty { order.old.items ≡ [] }
    ensures { Arranged (cells_in gates.entry) order.new.items result }
{
    marks.fill(Mark::New);
    // by number, since a walk changes the marks of other nets too, so that no iterator can lend them
    for k in 0..gates.nets.len() {
        if let Mark::New = marks[k] {
            follow(gates, k as u16, room, marks, order)?;
        }
    }
    Ok(())
}
