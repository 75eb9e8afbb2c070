// One turn: a part of each file is joined, printed and moved up.
ghost use Rattle.std.specs.Prelude.{◌+◌, ◌*◌, ◌≤◌, length};
ghost use Rattle.probes.specs.Joins.{number_in};
ghost use Rattle.lanes.specs.Parts.{Turns};
ghost use Rattle.lanes.specs.Steps.{left_in, written_in, Prints, Leaves, MovesUp, TurnsBoth};

use crate::printing::print;
use held::move_up;
use probes::{Refusal, join};

// Why a turn is refused, how many words it leaves of each list, and how many bytes it put.
#[derive(Clone, Copy)]
pub struct Turned {
    pub refused: Option<Refusal>,
    pub first: usize,
    pub second: usize,
    pub written: usize,
}

// How many words the rest of a join has, and how many bytes were put.
#[derive(Clone, Copy)]
struct Printed {
    left: usize,
    written: usize,
}

// Joins two lists and puts the text of what the join wrote; where one is empty, that of the rest, so that nothing is left.
// Both lists are lent for one lifetime: the rest may be of either.
fn join_print<'a>(
    first: &'a [u32],
    second: &'a [u32],
    third: &mut [u32],
    out: &mut [u8],
) -> Result<Printed, Refusal>
    requires { 11 * (length first.now + length second.now) ≤ length out.old }
    ensures { Prints first.now second.now third.old out.old third.new out.new (number_in result) (left_in result) (written_in result) }
{
    let joined = join(first, second, third);
    let count = joined.count?;
    if first.is_empty() || second.is_empty() {
        return Ok(Printed {
            left: 0,
            written: print(out, joined.rest),
        });
    }
    Ok(Printed {
        left: joined.rest.len(),
        written: print(out, &third[..count]),
    })
}

// How many words are left of each list.
#[derive(Clone, Copy)]
struct Left {
    first: usize,
    second: usize,
}

// Moves the rest of a join to the front of its list. The list whose last time is not above the other's was used up: of equal
// times the first list's record came first.
fn move_rest(first: &mut [u32], second: &mut [u32], left: usize) -> Left
    requires { Leaves first.old second.old left }
    ensures { MovesUp first.old second.old first.new second.new result }
{
    if left == 0 {
        return Left {
            first: 0,
            second: 0,
        };
    }
    let n = first.len();
    let m = second.len();
    if first[n - 9] <= second[m - 9] {
        return Left {
            first: 0,
            second: move_up(second, m - left, left),
        };
    }
    Left {
        first: move_up(first, n - left, left),
        second: 0,
    }
}

// Joins two lists by way of a third, puts the text of what is joined, and moves the rest to the front of its list.
fn turn_both(first: &mut [u32], second: &mut [u32], third: &mut [u32], out: &mut [u8]) -> Turned
    ensures { TurnsBoth first.old second.old third.old out.old first.new second.new third.new out.new result }
{
    let n = first.len();
    let m = second.len();
    let refused = |why| Turned {
        refused: Some(why),
        first: n,
        second: m,
        written: 0,
    };
    if out.len() / 11 < n + m {
        return refused(Refusal::NoRoom);
    }
    match join_print(first, second, third, out) {
        Ok(printed) => {
            let left = move_rest(first, second, printed.left);
            Turned {
                refused: None,
                first: left.first,
                second: left.second,
                written: printed.written,
            }
        }
        Err(why) => refused(why),
    }
}

// Joins the first `n` words of one list with the first `m` of another by way of a third, puts the text of what is joined, and
// moves the rest to the front of its list. Where one of them has no words, its file is at its end, and the other is put whole.
// A turn with no room for the text of both is refused as one with no room, and one whose join is refused as that join.
// The lists stand with a length beside each, since a caller may give any numbers: parts `first[..n]` would ask more of it.
pub fn turn(
    first: &mut [u32],
    n: usize,
    second: &mut [u32],
    m: usize,
    third: &mut [u32],
    out: &mut [u8],
) -> Turned
    ensures { Turns first.old n second.old m third.old out.old first.new second.new third.new out.new result }
{
    let n = n.min(first.len());
    let m = m.min(second.len());
    turn_both(&mut first[..n], &mut second[..m], third, out)
}
