// What the modules answer, and MAC's moves of the caller and of a signal's receiver.
#![tactic(auto)]

ghost use Rattle.std.specs.Prelude.{◌≡◌};
ghost use Rattle.modules.specs.Parts.{answers_by, fc_answer_by, ff_answer_by, mac_alone, mac_answer_by, mac_rule_by, moved_by, sim_answer_by};
ghost use Rattle.rules.specs.Modules.{class_in, fc_rule, ff_rule, levelled, mac_class, mac_object, mac_signal, may_read, may_set, may_write, move_by};
ghost use Rattle.rules.specs.Modules.{moved_to, moves_to, read_mark_raised, set_level, signalled, sim_rule, wanted};

use answers::{Answer, Answers};
use labels::Label;
use requests::Request;
use rules::{Action, Class, View};
use state::{Call, Object, Process, User};

// MAC's rule for R: l is the object's label, clr the clearance of the process's owner.
fn may_read(l: Label, r: Process, clr: Label) -> bool
    ensures { result ≡ may_read l r clr }
{
    let below = l.at_most(r.current);
    let above = r.current.join(l);
    let free = above.at_most(r.writemark) & above.at_most(clr);
    below | ((r.automatic == 1) & free)
}

// MAC's rule for W and B.
fn may_write(l: Label, r: Process, clr: Label) -> bool
    ensures { result ≡ may_write l r clr }
{
    let held = l.same(r.current);
    let low = r.readmark;
    let free = low.at_most(l) & (l.at_most(r.writemark) & l.at_most(clr));
    held | ((r.automatic == 1) & free)
}

// MAC's rule for set-level.
fn may_set(l: Label, r: Process, clr: Label) -> bool
    ensures { result ≡ may_set l r clr }
{
    let low = r.readmark;
    low.at_most(l) & (l.at_most(r.writemark) & l.at_most(clr))
}

// MAC by class, for an untrusted owner.
fn mac_class(k: Class, l: Label, r: Process, clr: Label) -> Answer
    ensures { result ≡ mac_class k l r clr }
{
    match k {
        Class::Absent => Answer::NotGranted,
        Class::Reads => Answer::grant(may_read(l, r, clr)),
        Class::Writes => Answer::grant(may_write(l, r, clr)),
        Class::Both => Answer::grant(may_write(l, r, clr)),
        Class::NoCondition => Answer::Granted,
    }
}

// MAC on an object: undefined where its level is unset, granted to a trusted owner, else by class.
fn mac_object(k: Class, o: Object, r: Process, u: User) -> Answer
    ensures { result ≡ mac_object k o r u }
{
    let l = o.label;
    if !l.is_given() {
        return Answer::Undefined;
    }
    if u.trusted == 1 {
        return Answer::Granted;
    }
    mac_class(k, l, r, u.clearance)
}

// MAC on send-signal.
fn mac_signal(r: Process, u: User, receiver: Process) -> Answer
    ensures { result ≡ mac_signal r u receiver }
{
    let here = r.current;
    let equal = here.same(receiver.current);
    Answer::grant((u.trusted == 1) | equal)
}

// FC on an object.
fn fc_rule(o: Object, u: User) -> Answer
    ensures { result ≡ fc_rule o u }
{
    if o.category == labels::UNSET {
        return Answer::Undefined;
    }
    Answer::grant((o.category == rules::GENERAL_CATEGORY) | (o.category == u.role))
}

// SIM on an object.
fn sim_rule(request: u8, k: Class, o: Object, u: User) -> Answer
    ensures { result ≡ sim_rule request k o u }
{
    let changes = requests::alters(k) | (request == rules::WRITE_REQUEST);
    if changes & (o.datatype == rules::SECURITY_INFORMATION) {
        return Answer::grant(u.role == rules::SECURITY_OFFICER);
    }
    Answer::NotCared
}

// FF on an object with these effective flags.
fn ff_rule(request: u8, k: Class, o: Object, seen: u8) -> Answer
    ensures { result ≡ ff_rule request k o seen }
{
    if flags::forbidding(seen, request, k, o.kind) == 0 {
        return Answer::NotCared;
    }
    Answer::NotGranted
}

// MAC's move of a process by class, on an object with label l.
fn move_by(k: Class, l: Label, r: Process) -> Process
    ensures { result ≡ move_by k l r }
{
    match k {
        Class::Absent => r,
        Class::Reads => after_read(l, r),
        Class::Writes => after_write(l, r),
        Class::Both => after_both(l, r),
        Class::NoCondition => r,
    }
}

// How often the label of r has moved by itself once R, W or B make it l.
fn moves_to(l: Label, r: Process) -> u8
    ensures { result ≡ moves_to l r }
{
    if l.same(r.current) {
        return r.moves;
    }
    if r.moves < state::MOST_MOVES {
        return r.moves + 1;
    }
    r.moves
}

// The process after R, W or B, with this current label and these marks.
fn moved_to(mut r: Process, current: Label, readmark: Label, writemark: Label) -> Process
    ensures { result ≡ moved_to r current readmark writemark }
{
    let moves = moves_to(current, r);
    r.moves = moves;
    r.current = current;
    r.readmark = readmark;
    r.writemark = writemark;
    r
}

fn after_read(l: Label, r: Process) -> Process
    ensures { result ≡ move_by Class.Reads l r }
{
    moved_to(r, r.current.join(l), r.readmark.join(l), r.writemark)
}

fn after_write(l: Label, r: Process) -> Process
    ensures { result ≡ move_by Class.Writes l r }
{
    moved_to(r, l, r.readmark, r.writemark.meet(l))
}

fn after_both(l: Label, r: Process) -> Process
    ensures { result ≡ move_by Class.Both l r }
{
    moved_to(r, l, l, l)
}

// The process after set-level.
fn set_level(l: Label, mut r: Process) -> Process
    ensures { result ≡ set_level l r }
{
    r.current = l;
    r.automatic = 0;
    r
}

// The class of a call by the kind of its object.
pub fn class_in(v: View, c: Call) -> Class
    ensures { result ≡ class_in v c }
{
    requests::class_of(c.request, v.target.object.kind)
}

// The label that set-level asks for: the level e, and the set from t.
fn wanted(c: Call) -> Label
    ensures { result ≡ wanted c }
{
    Label::of(c.extra, c.target)
}

fn mac_set_level(v: View, c: Call) -> Answer
    ensures { result ≡ mac_alone Action.SetLevel v c }
{
    Answer::grant(may_set(wanted(c), v.caller, v.owner.clearance))
}

// MAC's rule where no object is needed.
fn mac_alone(k: Action, v: View, c: Call) -> Answer
    ensures { result ≡ mac_alone k v c }
{
    match k {
        Action::Login => Answer::Granted,
        Action::Clone => Answer::Granted,
        Action::SendSignal => mac_signal(v.caller, v.owner, v.target.receiver),
        Action::SetLevel => mac_set_level(v, c),
        Action::Terminate => Answer::Granted,
        Action::Create => Answer::Granted,
        Action::OnObject => Answer::NotGranted,
        Action::Unknown => Answer::NotGranted,
    }
}

// MAC's rule.
fn mac_rule(q: Request, v: View, c: Call) -> Answer
    ensures { result ≡ mac_rule_by q v c }
{
    let k = q.action;
    let class = q.class;
    if q.object {
        return mac_object(class, v.target.object, v.caller, v.owner);
    }
    mac_alone(k, v, c)
}

// The answers of the modules by what is known of the request: one that is off does not care.
fn mac_answer(q: Request, v: View, c: Call) -> Answer
    ensures { result ≡ mac_answer_by q v c }
{
    if v.switches.mac == 1 {
        return mac_rule(q, v, c);
    }
    Answer::NotCared
}

fn fc_answer(q: Request, v: View) -> Answer
    ensures { result ≡ fc_answer_by q v }
{
    if (v.switches.fc == 1) & q.object {
        return fc_rule(v.target.object, v.owner);
    }
    Answer::NotCared
}

fn sim_answer(q: Request, v: View, c: Call) -> Answer
    ensures { result ≡ sim_answer_by q v c }
{
    let k = q.class;
    if (v.switches.sim == 1) & q.object {
        return sim_rule(c.request, k, v.target.object, v.owner);
    }
    Answer::NotCared
}

fn ff_answer(q: Request, v: View, c: Call) -> Answer
    ensures { result ≡ ff_answer_by q v c }
{
    let k = q.class;
    if (v.switches.ff == 1) & q.object {
        return ff_rule(c.request, k, v.target.object, v.looked.flags);
    }
    Answer::NotCared
}

pub fn answers(q: Request, v: View, c: Call) -> Answers
    ensures { result ≡ answers_by q v c }
{
    Answers::of(
        mac_answer(q, v, c),
        fc_answer(q, v),
        sim_answer(q, v, c),
        ff_answer(q, v, c),
    )
}

// The caller after an accepted call on an object, which is of class k.
pub fn moved(k: Class, v: View) -> Process
    ensures { result ≡ moved_by k v }
{
    if (v.switches.mac == 1) & !(v.owner.trusted == 1) {
        return move_by(k, v.target.object.label, v.caller);
    }
    v.caller
}

// The caller after an accepted set-level.
pub fn levelled(v: View, c: Call) -> Process
    ensures { result ≡ levelled v c }
{
    if v.switches.mac == 1 {
        return set_level(wanted(c), v.caller);
    }
    v.caller
}

fn read_mark_raised(mut r: Process) -> Process
    ensures { result ≡ read_mark_raised r }
{
    let current = r.current;
    r.readmark = current;
    r
}

// The receiver after an accepted signal: with MAC on, and its owner not trusted, its read mark becomes its current label.
pub fn signalled(v: View) -> Process
    ensures { result ≡ signalled v }
{
    if (v.switches.mac == 1) & !(v.target.owner.trusted == 1) {
        return read_mark_raised(v.target.receiver);
    }
    v.target.receiver
}
