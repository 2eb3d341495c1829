// The ordered questions: what a call comes to, by what it looks at.
#![tactic(auto)]

ghost use Rattle.std.specs.Prelude.{ℕ, ◌≡◌, cond, eqb};
ghost use Rattle.questions.specs.Parts.{late_number, later_number, object_number, outcome_by, outcome_in, process_number};
ghost use Rattle.modules.specs.Parts.{answers_by};
ghost use Rattle.rules.specs.Questions.{in_range, is_free, is_running, runs_of, open_for, room_for};
ghost use Rattle.rules.specs.Requests.{is_create, action_of};
ghost use Rattle.labels.specs.Decisions.{asked, ◌and◌};
ghost use Rattle.answers.specs.Outcomes.{asked_or, no_object};

use answers::{Answer, Outcome, Refusal};
use requests::Request;
use rules::{Action, Runs, View};
use state::{Call, Process};

// A question that is put only where `put` says so.
fn only_if(put: bool, answer: bool) -> bool
    ensures { result ≡ asked put answer }
{
    if put { answer } else { true }
}

// Question 2.
fn in_range(c: Call) -> bool
    ensures { result ≡ in_range (action_of c.request) c }
{
    let clone = only_if(requests::is_clone(c.request), c.target < opens::PROCESSES);
    let signal = only_if(
        requests::is_send_signal(c.request),
        c.target < opens::PROCESSES,
    );
    (c.process < opens::PROCESSES) & (clone & signal)
}

// Question 3.
fn is_running(runs: Runs, request: u8) -> bool
    ensures { result ≡ is_running (action_of request) runs }
{
    let caller = only_if(!requests::is_login(request), runs.caller == 1);
    let receiver = only_if(requests::is_send_signal(request), runs.receiver == 1);
    caller & receiver
}

// Question 4.
fn is_free(runs: Runs, request: u8) -> bool
    ensures { result ≡ is_free (action_of request) runs }
{
    let login = only_if(requests::is_login(request), !(runs.caller == 1));
    let clone = only_if(requests::is_clone(request), !(runs.receiver == 1));
    login & clone
}

// Open in the mode of the request.
fn open_for(v: View, c: Call) -> bool
    ensures { result ≡ open_for v c }
{
    let reads = opens::reading(v.target.opens);
    let writes = opens::writing(v.target.opens);
    if c.request == rules::READ_REQUEST {
        return reads;
    }
    if c.request == rules::WRITE_REQUEST {
        return writes;
    }
    reads | writes
}

// Question 10.
fn room_for(k: Action, v: View, c: Call) -> bool
    ensures { result ≡ room_for k v c }
{
    only_if(requests::is_create(k), v.entered < opens::OBJECTS)
}

// Questions 10 to 13; `combined` is the modules' combined answer.
fn ask_late(k: Action, v: View, c: Call, combined: Answer) -> Result<(), Refusal>
    ensures { asked_or result 0 ≡ late_number k v c combined }
{
    let level = only_if(requests::is_set_level(k), c.extra <= Process::TOP);
    answers::ask(room_for(k, v, c), Refusal::AllObjectsEntered)?;
    answers::ask(level, Refusal::NoSuchLevel)?;
    answers::ask(!combined.is_not_granted(), Refusal::NotGranted)?;
    answers::ask(!combined.is_undefined(), Refusal::Undefined)
}

// Questions 8, 6, 7 and 9.
fn ask_object(q: Request, v: View, c: Call) -> Result<(), Refusal>
    ensures { (later : ℕ) → asked_or result later ≡ object_number q v c later }
{
    let class = q.class;
    let target = q.object;
    let kind = only_if(requests::is_create(q.action), c.extra <= rules::LAST_KIND);
    let open = only_if(requests::is_no_condition(class), open_for(v, c));
    answers::ask(kind, Refusal::NoSuchKind)?;
    answers::ask(only_if(target, v.target.object.live == 1), Refusal::NotLive)?;
    answers::ask(
        only_if(target, !requests::is_absent(class)),
        Refusal::KindLacksRequest,
    )?;
    answers::ask(only_if(target, open), Refusal::NotOpen)
}

// Questions 1 to 5.
pub fn ask_process(runs: Runs, c: Call) -> Result<(), Refusal>
    ensures { (later : ℕ) → asked_or result later ≡ process_number (action_of c.request) runs c later }
{
    let user = only_if(requests::is_login(c.request), c.extra < runs.users);
    answers::ask(c.request <= requests::LAST, Refusal::NoSuchRequest)?;
    answers::ask(in_range(c), Refusal::NoSuchProcess)?;
    answers::ask(is_running(runs, c.request), Refusal::NotRunning)?;
    answers::ask(is_free(runs, c.request), Refusal::NotFree)?;
    answers::ask(user, Refusal::NoSuchUser)
}

// The object number that an accepted create gives, 255 with every other call.
fn object_given(number: u8, k: Action, entered: u8) -> u8
    ensures { result ≡ cond (eqb number 0 and is_create k) entered no_object }
{
    if (number == 0) & requests::is_create(k) {
        return entered;
    }
    answers::NO_OBJECT
}

// What a call comes to that no question before the tenth refuses.
fn judged(q: Request, v: View, c: Call) -> Outcome
    ensures { result ≡ outcome_by (late_number q.action v c (answers_by q v c).combined) q v c }
{
    let k = q.action;
    let answers = modules::answers(q, v, c);
    let combined = answers.combined;
    match ask_late(k, v, c, combined) {
        Ok(()) => Outcome::Accepted {
            answers,
            object: object_given(0, k, v.entered),
        },
        Err(refusal) => {
            let number = refusal.number();
            Outcome::of(number, answers, object_given(number, k, v.entered))
        }
    }
}

// What a call comes to that no question before the sixth refuses. The modules are asked only where no question before the tenth does.
pub fn outcome_later(q: Request, v: View, c: Call) -> Outcome
    ensures { result ≡ outcome_by (later_number q v c) q v c }
{
    match ask_object(q, v, c) {
        Ok(()) => judged(q, v, c),
        Err(refusal) => Outcome::Refused {
            number: refusal.number(),
        },
    }
}

// What questions 1 to 5 look at.
fn runs_of(v: View) -> Runs
    ensures { result ≡ runs_of v }
{
    Runs {
        users: v.users,
        caller: v.caller.running,
        receiver: v.target.receiver.running,
    }
}

// What a call comes to, by what it looks at.
pub fn outcome_in(v: View, c: Call) -> Outcome
    ensures { result ≡ outcome_in v c }
{
    if let Err(refusal) = ask_process(runs_of(v), c) {
        return Outcome::Refused {
            number: refusal.number(),
        };
    }
    let q = requests::request_of(c.request, v.target.object.kind, c.extra);
    outcome_later(q, v, c)
}
