// A run over any state: the whole state is checked once, then the events run in place.
ghost use Rattle.std.specs.Prelude.{◌≡◌, ◌*◌, ◌≤◌, length, replicate};
ghost use Rattle.std.proofs.lemmas.List.Edits.{sets};
ghost use Rattle.rules.specs.Effects.{answer as answer_of};
ghost use Rattle.rules.specs.Runs.{events_to, run_of, answers_of, words_of};
ghost use Rattle.running.specs.Words.{runnable};

use crate::turns::{put, turns};
use rules::events::Answer;
use rules::refusals::Refusal;
use rules::states::State;
use whole::well_formed;

// Each of n events answers 1.
fn refuse_all(n: usize, answers: &mut [u32])
    requires { n * 3 ≤ length answers.old }
    ensures { answers.new ≡ sets answers.old 0 (words_of (replicate n (answer_of 1 0 64))) }
{
    // by number, as in `turns`
    for i in 0..n {
        put(answers, i * 3, Answer::refused(Refusal::IllFormed));
    }
}

// As many events as there are, and room for their answers.
#[tactic(auto, unfolding(crate::specs::Words::runnable))]
fn count(words: usize, room: usize) -> usize
    ensures words { result * 8 ≤ words }
    ensures room { result * 3 ≤ room }
    ensures count { result ≡ runnable words room }
{
    (words / 8).min(room / 3)
}

// The state after the events, as many as there is room for; a state that is not well formed answers 1 to each.
pub fn run(s: State, events: &[u32], answers: &mut [u32]) -> State
    ensures state { result ≡ run_of s (events_to (runnable (length events.now) (length answers.old)) events.now) }
    ensures answers { answers.new ≡ sets answers.old 0 (words_of (answers_of s (events_to (runnable (length events.now) (length answers.old)) events.now))) }
{
    let n = count(events.len(), answers.len());
    if well_formed(s) {
        return turns(s, n, events, answers);
    }
    refuse_all(n, answers);
    s
}
