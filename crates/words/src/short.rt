// The short line of a call: what was asked, what it came to, why not, and what changed.
ghost use Rattle.rules.specs.Requests.{action_of};
ghost use Rattle.text.specs.Stored.{Put};
ghost use Rattle.words.specs.Short.{caller_then, labels_text, same_process, short_create, short_object, short_outcome, short_target, short_text, target_then};
ghost use Rattle.std.specs.Prelude.{◌≡◌};

use crate::{Reason, Told, put_filled, put_made, put_one, put_target};
use answers::Outcome;
use rules::{Action, View};
use state::{Call, Object, Process, User};
use text::Out;

// A process: its current label and its marks, and the clearance of the user who owns it.
fn put_labels(out: &mut Out, r: Process, u: User)
    ensures { Put out.old (labels_text r u) out.new }
{
    if r.running == 1 {
        let numbers = [
            r.current.level,
            r.current.set,
            r.readmark.level,
            r.readmark.set,
            r.writemark.level,
            r.writemark.set,
            u.clearance.level,
            u.clearance.set,
        ];
        return put_filled(out, b"current #*, marks #* to #*, clearance #*", &numbers);
    }
    out.text(b"not running");
}

// An object: its number, and where it is live its label.
fn put_object(out: &mut Out, t: u8, o: Object)
    ensures { Put out.old (short_object t o) out.new }
{
    if o.live == 1 {
        return put_filled(
            out,
            b" object # (level $*)",
            &[t, o.label.level, o.label.set],
        );
    }
    put_one(out, b" object #", t);
}

// What a create makes, and in which directory.
fn put_create(out: &mut Out, c: Call, o: Object)
    ensures { Put out.old (short_create c o) out.new }
{
    if requests::in_directory(c.extra) {
        put_one(out, b" % in", c.extra);
        return put_object(out, c.target, o);
    }
    put_one(out, b" %", c.extra);
}

// What the request is about.
fn put_short_target(out: &mut Out, c: Call, v: View)
    ensures { Put out.old (short_target (action_of c.request) c v) out.new }
{
    let k = requests::action_of(c.request);
    match k {
        Action::Login => put_target(out, c, v),
        Action::Clone => put_one(out, b" to process #", c.target),
        Action::SendSignal => put_one(out, b" to process #", c.target),
        Action::SetLevel => put_target(out, c, v),
        Action::Terminate => put_target(out, c, v),
        Action::Create => put_create(out, c, v.target.object),
        Action::OnObject => put_object(out, c.target, v.target.object),
        Action::Unknown => put_target(out, c, v),
    }
}

// The number with what it says, the conditions that failed, and the object that was made.
fn put_outcome(out: &mut Out, o: Outcome, r: Reason)
    ensures { Put out.old (short_outcome o r) out.new }
{
    let n = o.number();
    put_filled(out, b": # !", &[n, n]);
    names::put_failed(out, r.failed, r.source);
    put_made(out, o.object());
}

// Whether a process is what it was: running, owner, labels and automatic.
fn same_process(r: Process, x: Process) -> bool
    ensures { result ≡ same_process r x }
{
    let current = r.current;
    let low = r.readmark;
    let high = r.writemark;
    let labels = current.same(x.current)
        & (low.same(x.readmark) & (high.same(x.writemark) & (r.automatic == x.automatic)));
    (r.running == x.running) & ((r.owner == x.owner) & labels)
}

// The caller, r before the call and x after it, of user u: told where the call is denied or the caller is not what it was.
fn put_caller(out: &mut Out, o: Outcome, r: Process, x: Process, u: User)
    ensures { Put out.old (caller_then o r x u) out.new }
{
    let denied = answers::is_denial(o.number());
    if denied | !same_process(r, x) {
        out.text(b"; then ");
        return put_labels(out, x, u);
    }
    out.nothing();
}

// The receiver of a signal, or the clone: told where it is not what it was.
fn put_receiver(out: &mut Out, c: Call, r: Process, x: Process, u: User)
    ensures { Put out.old (target_then c r x u) out.new }
{
    let signal = requests::is_send_signal(c.request);
    let clone = requests::is_clone(c.request);
    if (signal | clone) & !same_process(r, x) {
        put_one(out, b"; process # then ", c.target);
        return put_labels(out, x, u);
    }
    out.nothing();
}

// The line of a call.
pub(crate) fn put_short(out: &mut Out, t: Told)
    ensures { Put out.old (short_text t) out.new }
{
    let o = t.outcome;
    out.decimal(t.index);
    put_filled(out, b" process # &", &[t.call.process, t.call.request]);
    put_short_target(out, t.call, t.before);
    put_outcome(out, o, t.reason);
    put_caller(out, o, t.before.caller, t.later.caller, t.later.owner);
    put_receiver(
        out,
        t.call,
        t.before.target.receiver,
        t.later.target.receiver,
        t.later.target.owner,
    );
    out.text(b"\n");
}
