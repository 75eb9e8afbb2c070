// A run of events over a state that is well formed: each event is read from its words, and its answer put into its own.
ghost use Rattle.std.specs.Prelude.{◌≡◌, true, ◌+◌, ◌*◌, ◌≤◌, length};
ghost use Rattle.std.proofs.lemmas.List.Edits.{sets};
ghost use Rattle.rules.specs.WellFormed.{well_formed};
ghost use Rattle.rules.specs.Runs.{event_of, events_to, run_of, answers_of, words_of};
ghost use Rattle.running.specs.Words.{answer_set};

use crate::steps::Run;
use rules::events::{Answer, Event};
use rules::states::State;

// The event record in eight words: each field stands beside its word, which a From would not say more plainly.
fn decode(w: &[u32]) -> Event
    requires { 8 ≤ length w.now }
    ensures { result ≡ event_of w.now }
{
    Event {
        kind: w[0],
        line: w[1],
        node: w[2],
        other: w[3],
        amount: w[4],
        owner: w[5],
        full: w[6],
        word: w[7],
    }
}

// The answer into its three words.
pub(crate) fn put(answers: &mut [u32], at: usize, a: Answer)
    requires { at + 3 ≤ length answers.old }
    ensures { answers.new ≡ answer_set answers.old at a }
{
    answers[at] = a.number;
    answers[at + 1] = a.word;
    answers[at + 2] = a.slot;
}

// The state after n events, and their answers.
pub(crate) fn turns(s: State, n: usize, events: &[u32], answers: &mut [u32]) -> State
    requires well { well_formed s ≡ true }
    requires words { n * 8 ≤ length events.now }
    requires room { n * 3 ≤ length answers.old }
    ensures state { result ≡ run_of s (events_to n events.now) }
    ensures answers { answers.new ≡ sets answers.old 0 (words_of (answers_of s (events_to n events.now))) }
{
    let mut run = Run::new(s);
    // by number: of answers that are lent out by threes a proof knows the length alone
    for i in 0..n {
        let at = i * 8;
        let e = decode(&events[at..at + 8]);
        let out = i * 3;
        put(answers, out, run.step(e));
    }
    run.state
}
