// A condition that stands in the bits of a sheet, walked in the order in which it is computed: one item after the
// other, with no nested call.
#![tactic(auto)]

ghost use Rattle.std.specs.Prelude.{◌≡◌, ◌<◌, List, false};
ghost use Rattle.walk.specs.Items.{Item};
ghost use Rattle.walk.specs.inside.Walking.{walk_at, Down, Downward, Walks, Walking, Tells, Loads, Falls, left};

use words::Op;

// The next bit; what waits, a digit of base 4 for each, the innermost in the lowest, below a 1: 1 NOT, 2 AND and 3 OR
// before their second operand, 0 a parenthesis to close; and whether an operand has just been finished.
// What waits is packed into one number, since a walk is handed on by value at each item and nothing is on a heap.
#[derive(Clone, Copy, Debug, PartialEq, Eq)]
pub struct Walk {
    pub at: usize,
    pub pending: u64,
    pub up: bool,
}

// The walk of the condition at bit `at`. It is no Iterator: each call of `next` requires a walk that stands in a sheet.
pub fn start(at: usize) -> Walk
    ensures { result ≡ walk_at at 1 false }
{
    Walk {
        at,
        pending: 1,
        up: false,
    }
}

// Down to the next input, with the walk behind it: the operators before it wait.
fn descend(s: &[u8], from: usize, waiting: u64) -> (u32, Walk)
    requires { Downward s.now from waiting }
    ensures loads { (is : List Item) → Down s.now from waiting is → Loads s.now is result.0 result.1 }
    ensures falls { left result.1.at result.1.pending < left from waiting }
{
    let mut at = from;
    let mut pending = waiting;
    'down: loop {
        let node = bits::number(s, at, 6);
        if node < 16 {
            let walk = Walk {
                at: at + 6,
                pending,
                up: true,
            };
            return (node, walk);
        }
        pending = pending * 4 + u64::from(node / 16);
        at += 2;
    }
}

// What the next item's word does, its operand, and the walk behind it; or none, where the condition is done.
pub fn next(s: &[u8], w: Walk) -> Option<(Op, u32, Walk)>
    requires { Walking s.now w }
    ensures { ((is : List Item) → Walks s.now w is → Tells s.now is result) × Falls w.at w.pending result }
{
    let Walk { at, pending, up } = w;
    if !up {
        let (input, walk) = descend(s, at, pending);
        return Some((Op::Ldi, input, walk));
    }
    if pending == 1 {
        return None;
    }
    let (op, pending, up) = match pending % 4 {
        0 => (Op::Close, pending / 4, true),
        1 => (Op::Not, pending / 4, true),
        2 => (Op::And, pending - 2, false),
        _ => (Op::Or, pending - 3, false),
    };
    Some((op, 0, Walk { at, pending, up }))
}
