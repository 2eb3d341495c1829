// What a call changes. It is made as it is found: a value of the change would be put together in memory and taken apart again.
ghost use Rattle.std.specs.Prelude.{◌≡◌, cond};
ghost use Rattle.rules.specs.Effects.{change_of};
ghost use Rattle.rules.specs.Modules.{class_in};
ghost use Rattle.rules.specs.Requests.{action_of};
ghost use Rattle.state.specs.State.{add_object, changed, open_by, put_process, terminated};

use in_place::FacilityStore;
use opens::OpenChange;
use rules::{Class, View};
use state::{Call, Object, Process};

// Process p becomes r, and the opens of object t change.
fn use_object<S: FacilityStore>(s: &mut S, p: u8, r: Process, t: u8, change: OpenChange)
    ensures { S.becomes s.old s.new (open_by change (put_process (S.facility s.old) p r) p t) }
{
    s.put_process(p, r);
    s.change_opens(p, t, change);
}

// Process p becomes r, and an object is entered.
fn create_object<S: FacilityStore>(s: &mut S, p: u8, r: Process, o: Object)
    ensures { S.becomes s.old s.new (add_object (put_process (S.facility s.old) p r) o) }
{
    s.put_process(p, r);
    s.add_object(o);
}

// Process p terminates, where `ends`. A number that is no request comes here too, and not to an empty arm: so its must-fail edit changes a value.
fn end_process<S: FacilityStore>(s: &mut S, p: u8, ends: bool)
    ensures { S.becomes s.old s.new (cond ends (terminated (S.facility s.old) p) (S.facility s.old)) }
{
    if ends {
        s.terminate(p);
    }
}

// What an accepted call of this class changes: a create of a file or a directory moves the caller too.
pub(crate) fn make_accepted<S: FacilityStore>(s: &mut S, class: Class, v: View, c: Call)
    requires { class ≡ class_in v c }
    ensures { S.becomes s.old s.new (changed (S.facility s.old) (change_of (action_of c.request) v c)) }
{
    match c.request {
        rules::CLONE_REQUEST => s.clone_process(c.process, c.target),
        rules::CREATE_REQUEST if requests::in_directory(c.extra) => {
            let r = modules::moved(class, v);
            create_object(s, c.process, r, effects::created(r, c.extra, c.target));
        }
        rules::CREATE_REQUEST => s.add_object(effects::created(v.caller, c.extra, c.target)),
        rules::SEND_SIGNAL_REQUEST => s.put_process(c.target, modules::signalled(v)),
        rules::SET_LEVEL_REQUEST => s.put_process(c.process, modules::levelled(v, c)),
        rules::TERMINATE_REQUEST => end_process(s, c.process, true),
        rules::LOGIN_REQUEST => s.put_process(c.process, Process::fresh(c.extra)),
        effects::NO_REQUEST..=255 => end_process(s, c.process, false),
        _ => {
            let r = modules::moved(class, v);
            use_object(s, c.process, r, c.target, requests::open_change(c.request));
        }
    }
}
