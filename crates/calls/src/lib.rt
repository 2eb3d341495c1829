// Query and enforce on a facility, wherever it is.
#![tactic(auto)]

ghost use Rattle.std.specs.Prelude.{ℕ, ◌≡◌};
ghost use Rattle.answers.specs.Outcomes.{asked_or};
ghost use Rattle.questions.specs.Parts.{process_number};
ghost use Rattle.rules.specs.Calls.{after, enforce, query};
ghost use Rattle.rules.specs.Modules.{view_of};
ghost use Rattle.rules.specs.Questions.{runs_of};
ghost use Rattle.rules.specs.Requests.{action_of};

mod changes;
mod views;

use answers::{Outcome, Refusal};
use in_place::FacilityStore;
use rules::Enforced;
use state::{Call, Facility};
pub use views::view_of;

// Questions 1 to 5. After the first two none asks any more whether the request, or the caller's number, is one.
fn ask_first<S: FacilityStore>(s: &S, c: Call) -> Result<(), Refusal>
    ensures { (later : ℕ) → asked_or result later ≡ process_number (action_of c.request) (runs_of (view_of (S.facility s.now) c)) c later }
{
    answers::ask(c.request <= requests::LAST, Refusal::NoSuchRequest)?;
    answers::ask(c.process < opens::PROCESSES, Refusal::NoSuchProcess)?;
    questions::ask_process(views::runs(s, c), c)
}

// What enforce would give; nothing changes.
pub fn query<S: FacilityStore>(s: &S, c: Call) -> Outcome
    ensures { result ≡ query (S.facility s.now) c }
{
    if let Err(refusal) = ask_first(s, c) {
        return Outcome::Refused {
            number: refusal.number(),
        };
    }
    let q = views::request(s, c);
    questions::outcome_later(q, views::view_asked(s, q.class, c), c)
}

// What a call comes to, and the facility becomes the one after it: an accepted call changes what its request does, a denied one the counter of the
// caller's owner, any other nothing.
pub fn enforce<S: FacilityStore>(s: &mut S, c: Call) -> Outcome
    ensures value { result ≡ query (S.facility s.old) c }
    ensures becomes { S.becomes s.old s.new (after (S.facility s.old) c) }
{
    if let Err(refusal) = ask_first(s, c) {
        return Outcome::Refused {
            number: refusal.number(),
        };
    }
    let q = views::request(s, c);
    let v = views::view_asked(s, q.class, c);
    let outcome = questions::outcome_later(q, v, c);
    match outcome {
        Outcome::Accepted {
            answers: _,
            object: _,
        } => changes::make_accepted(s, q.class, v, c),
        Outcome::Denied {
            answers: _,
            number: _,
        } => s.count_refusal(v.caller.owner),
        Outcome::Refused { number: _ } => {}
    }
    outcome
}

// The same by value: the facility after a call, and what the call came to.
pub fn enforced(f: Facility, c: Call) -> Enforced
    ensures { result ≡ enforce f c }
{
    let mut facility = f;
    let outcome = enforce(&mut facility, c);
    Enforced { facility, outcome }
}
