// Two lists of records are joined into a third by time.
ghost use Rattle.std.specs.Prelude.{◌+◌, ◌*◌, ◌≤◌, ◌≡◌, length};
ghost use Rattle.probes.specs.Joins.{number_for, number_in, count_in, number_of, Joins};
ghost use Rattle.probes.specs.Parts.{Merges};

use crate::records::{put, records, time_falls};

// Why a join is refused: a list whose length is no multiple of nine, a third list that cannot hold both, a time that falls.
// Each reason has the number that is given back for it.
#[derive(Clone, Copy, PartialEq, Eq, Debug)]
pub enum Refusal {
    Uneven = 20,
    NoRoom = 21,
    TimeFalls = 24,
}

impl Refusal {
    // The number that is given back.
    pub fn number(self) -> u32
        ensures { result ≡ number_for self }
    {
        self as u32
    }
}

// Whether a join into a list of `room` words is refused.
#[tactic(auto, unfolding(crate::specs::Joins::number_of, crate::specs::Joins::number_by))]
fn check(first: &[u32], second: &[u32], room: usize) -> Result<(), Refusal>
    ensures { number_in result ≡ number_of first.now second.now room }
{
    if first.len() % 9 != 0 || second.len() % 9 != 0 {
        return Err(Refusal::Uneven);
    }
    if room < first.len() + second.len() {
        return Err(Refusal::NoRoom);
    }
    if time_falls(records(first)) || time_falls(records(second)) {
        return Err(Refusal::TimeFalls);
    }
    Ok(())
}

// How many records a merge took of each list: of one of them all.
#[derive(Clone, Copy)]
struct Taken {
    first: usize,
    second: usize,
}

// Puts records of both lists into the third, by time, until one list is used up.
fn merge(first: &[[u32; 9]], second: &[[u32; 9]], third: &mut [u32]) -> Taken
    requires { 9 * (length first.now + length second.now) ≤ length third.old }
    ensures { Merges first.now second.now third.old third.new result }
{
    let mut firsts = first;
    let mut seconds = second;
    let mut at = 0;
    // no `for` goes over two lists of which each turn takes one of either; `at` counts words of a list that is lent
    while let [a, after_a @ ..] = firsts {
        let [b, after_b @ ..] = seconds else {
            break;
        };
        if a[0] <= b[0] {
            put(third, at, a);
            firsts = after_a;
        } else {
            put(third, at, b);
            seconds = after_b;
        }
        at += 9;
    }
    Taken {
        first: first.len() - firsts.len(),
        second: second.len() - seconds.len(),
    }
}

// What a join gives: how many words it wrote, or why it is refused; and the rest of the list that is not used up.
// The rest stands beside the Result, not in it, since a refused join hands back the first list too.
#[derive(Clone, Copy)]
pub struct Joined<'a> {
    pub count: Result<usize, Refusal>,
    pub rest: &'a [u32],
}

// Joins two lists of records into the third by time, equal times taking the first list's record first, until one list is used up.
// Hands back the rest of the other, and how many words are written. A refused join writes nothing and hands back the first list.
pub fn join<'a>(first: &'a [u32], second: &'a [u32], third: &mut [u32]) -> Joined<'a>
    ensures { Joins first.entry second.entry third.old (number_in result.count) (count_in result.count) third.new result.rest }
{
    if let Err(why) = check(first, second, third.len()) {
        return Joined {
            count: Err(why),
            rest: first,
        };
    }
    let firsts = records(first);
    let seconds = records(second);
    let taken = merge(firsts, seconds, third);
    let rest = if taken.first == firsts.len() {
        &second[9 * taken.second..]
    } else {
        &first[9 * taken.first..]
    };
    Joined {
        count: Ok(9 * (taken.first + taken.second)),
        rest,
    }
}
