// The step and the batch, over a run in place.
ghost use Rattle.std.specs.Prelude.{◌≡◌, IfOk};
ghost use Rattle.rules.specs.Kinds.{number_in};
ghost use Rattle.rules.specs.Effects.{step_of};
ghost use Rattle.rules.specs.Runs.{count_of, batch_number, batch_of, batch_answers};

use parts::changes::answer;
use rules::events::{Batched, Event, Stepped};
use rules::refusals::Refusal;
use rules::states::State;
use running::run;

// One step, of any state and any event record: a run of its one event, so that a step and a batch go the same way.
pub fn step(s: State, e: Event) -> Stepped
    ensures { result ≡ step_of s e }
{
    // `run` takes words: no `From`, which would be told of here alone
    let words = [
        e.kind, e.line, e.node, e.other, e.amount, e.owner, e.full, e.word,
    ];
    let mut out = [0; 3];
    let after = run(s, &words, &mut out);
    Stepped {
        state: after,
        answer: answer(out[0], out[1], out[2]),
    }
}

// How many events a batch has, eight words for each, where there is room for three answer words for each.
#[tactic(auto, unfolding(rules::specs::Runs::batch_number))]
fn events_in(events: &[u32], answers: &[u32]) -> Result<usize, Refusal>
    ensures number { number_in result ≡ batch_number events.now answers.now }
    ensures count { IfOk result (λ n. n ≡ count_of events.now) }
{
    let count = events.len() / 8;
    if events.len() % 8 != 0 {
        return Err(Refusal::UnevenWords);
    }
    if answers.len() < 3 * count {
        return Err(Refusal::NoRoom);
    }
    Ok(count)
}

// A run over the events in a list of words, with three answer words for each.
pub fn batch(s: State, events: &[u32], answers: &mut [u32]) -> Batched
    ensures { (result ≡ batch_of s events.now answers.old) × (answers.new ≡ batch_answers s events.now answers.old) }
{
    match events_in(events, answers) {
        Ok(count) => Batched {
            number: 0,
            state: run(s, events, answers),
            count,
        },
        Err(why) => Batched {
            number: why.number(),
            state: s,
            count: 0,
        },
    }
}
