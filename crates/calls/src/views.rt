// What a call looks at: all of it, and as far as it asks for it.
ghost use Rattle.std.specs.Prelude.{◌≡◌};
ghost use Rattle.calls.specs.Seen.{flags_asked, no_user, target_asked, view_asked};
ghost use Rattle.modules.specs.Parts.{request_in};
ghost use Rattle.rules.specs.Modules.{class_in, target_of, view_of};
ghost use Rattle.rules.specs.Questions.{runs_of};
ghost use Rattle.rules.specs.Requests.{action_of};

use in_place::FacilityStore;
use labels::Label;
use requests::Request;
use rules::{Class, Looked, Runs, Target, View};
use state::{Call, Process, User};

const ALL_FLAGS: u8 = flags::READ_ONLY
    + flags::NO_EXECUTE
    + flags::NO_DELETE
    + flags::SEARCH_ONLY
    + flags::ADD_INHERITED;

// What is known of a call's request.
pub(crate) fn request<S: FacilityStore>(s: &S, c: Call) -> Request
    ensures { result ≡ request_in (view_of (S.facility s.now) c) c }
{
    requests::request_of(c.request, s.object(c.target).kind, c.extra)
}

// The effective flags of a call's target, where one of the flags could forbid its request at all: for any other no chain is looked up.
fn flags_asked<S: FacilityStore>(s: &S, class: Class, c: Call) -> u8
    requires { class ≡ class_in (view_of (S.facility s.now) c) c }
    ensures { result ≡ flags_asked (S.facility s.now) c }
{
    let kind = s.object(c.target).kind;
    if flags::forbidding(ALL_FLAGS, c.request, class, kind) == 0 {
        return 0;
    }
    flags::seen(s, c.target)
}

// The target of process p.
fn target_of<S: FacilityStore>(s: &S, p: u8, t: u8) -> Target
    ensures { result ≡ target_of (S.facility s.now) p t }
{
    let receiver = s.process(t);
    Target {
        receiver,
        object: s.object(t),
        opens: s.opens(p, t),
        owner: s.user(receiver.owner),
    }
}

// The owner of a process that is not looked at.
fn no_user() -> User
    ensures { result ≡ no_user }
{
    User::default()
}

// The target of a call: as a process, with its owner, for a signal alone. It has one caller, so that it is not put together in memory first.
fn target_asked<S: FacilityStore>(s: &S, c: Call) -> Target
    ensures { result ≡ target_asked (action_of c.request) (S.facility s.now) c }
{
    let object = s.object(c.target);
    let opens = s.opens(c.process, c.target);
    if requests::is_send_signal(c.request) {
        let receiver = s.process(c.target);
        return Target {
            receiver,
            object,
            opens,
            owner: s.user(receiver.owner),
        };
    }
    Target {
        receiver: Process::none(),
        object,
        opens,
        owner: no_user(),
    }
}

// What a call of this class looks at, as far as it asks for it.
pub(crate) fn view_asked<S: FacilityStore>(s: &S, class: Class, c: Call) -> View
    requires { class ≡ class_in (view_of (S.facility s.now) c) c }
    ensures { result ≡ view_asked (S.facility s.now) c }
{
    let flags = flags_asked(s, class, c);
    let caller = s.process(c.process);
    let owner = s.user(caller.owner);
    let target = target_asked(s, c);
    View {
        switches: s.switches(),
        users: s.users(),
        entered: s.entered(),
        caller,
        owner,
        target,
        looked: Looked { flags },
    }
}

// All that a call looks at.
pub fn view_of<S: FacilityStore>(s: &S, c: Call) -> View
    ensures { result ≡ view_of (S.facility s.now) c }
{
    let caller = s.process(c.process);
    View {
        switches: s.switches(),
        users: s.users(),
        entered: s.entered(),
        caller,
        owner: s.user(caller.owner),
        target: target_of(s, c.process, c.target),
        looked: Looked {
            flags: flags::seen(s, c.target),
        },
    }
}

// What questions 1 to 5 look at: most refused calls need no more.
pub(crate) fn runs<S: FacilityStore>(s: &S, c: Call) -> Runs
    ensures { result ≡ runs_of (view_of (S.facility s.now) c) }
{
    Runs {
        users: s.users(),
        caller: s.process(c.process).running,
        receiver: s.process(c.target).running,
    }
}
