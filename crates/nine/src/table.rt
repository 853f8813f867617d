// The table of the nine values.
ghost use Rattle.std.specs.Prelude.{◌≡◌};
ghost use Rattle.nine.specs.Nine.{sides, gate3};

use crate::Nine;

// In the order of the table.
#[derive(Clone, Copy)]
pub(super) enum Operation {
    And,
    Or,
    Xor,
}

// What operation k gives of the values with the numbers x and y, at 81k + 9x + y.
const TABLE: [u8; 243] = [
    // and
    0, 0, 0, 0, 0, 0, 0, 0, 0, 0, 1, 2, 0, 1, 2, 0, 1, 2, 0, 2, 2, 0, 2, 2, 0, 2, 2, 0, 0, 0, 3, 3,
    3, 6, 6, 6, 0, 1, 2, 3, 4, 5, 6, 7, 8, 0, 2, 2, 3, 5, 5, 6, // and((1, X), (X, 0)) = (X, 0)
    8, 8, 0, 0, 0, 6, 6, 6, 6, 6, 6, 0, 1, 2, 6, 7, 8, 6, 7, 8, 0, 2, 2, 6, 8, 8, 6, 8, 8,
    // or
    0, 1, 2, 3, 4, 5, 6, 7, 8, 1, 1, 1, 4, 4, 4, 7, 7, 7, 2, 1, 2, 5, 4, 5, 8, 7, 8, 3, 4, 5, 3, 4,
    5, 3, 4, 5, 4, 4, 4, 4, 4, 4, 4, 4, 4, 5, 4, 5, 5, 4, 5, 5, 4, 5, 6, 7, 8, 3, 4, 5, 6, 7, 8, 7,
    7, 7, 4, 4, 4, 7, 7, 7, 8, 7, 8, 5, 4, 5, 8, 7, 8,
    // xor
    0, 1, 2, 3, 4, 5, 6, 7, 8, 1, 0, 2, 4, 3, 5, 7, 6, 8, 2, 2, 2, 5, 5, 5, 8, 8, 8, 3, 4, 5, 0, 1,
    2, 6, 7, 8, 4, 3, 5, 1, 0, 2, 7, 6, 8, 5, 5, 5, 2, 2, 2, 8, 8, 8, 6, 7, 8, 6, 7, 8, 6, 7, 8, 7,
    6, 8, 7, 6, 8, 7, 6, 8, 8, 8, 8, 8, 8, 8, 8, 8, 8,
];

pub(super) fn entry(operation: Operation, x: Nine, y: Nine) -> Nine
    ensures ruled { result ≡ sides (gate3 operation) x y }
{
    let at = 81 * operation as usize + 9 * usize::from(x.number) + usize::from(y.number);
    Nine { number: TABLE[at] }
}
