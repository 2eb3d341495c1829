// Why a call is refused with 12 or 13: the conditions of the modules' rules that failed.
#![tactic(auto)]

ghost use Rattle.std.specs.Prelude.{◌≡◌};
ghost use Rattle.reasons.specs.Reasons.{alone_failed, class_failed, failed_by, failed_in, failed_of, flag_failed, mac_failed, object_failed};
ghost use Rattle.reasons.specs.Reasons.{read_failed, set_failed, signal_failed, unless, write_failed};

use in_place::FacilityStore;
use labels::Label;
use rules::{Action, Class, View};
use state::{Call, Object, Process, User};

// The conditions of MAC that failed. Of an object: its level is unset. Of the label that is asked for, where it is not the current one: automatic is off;
// it is not under the clearance, not under the write mark, not over the read mark. Of a signal: the receiver's current label is another.
#[derive(Clone, Copy, Default)]
struct MacFailed {
    unset: bool,
    fixed: bool,
    clearance: bool,
    writemark: bool,
    readmark: bool,
    receiver: bool,
}

// All conditions that failed: those of MAC; of FC, the category is unset, or is not of the role; of SIM, the object is security information, and the
// role is not security officer; of FF the first flag that forbids the request, 0 where none does.
#[repr(C)]
#[derive(Clone, Copy, Default)]
pub struct Failed {
    pub unset: bool,
    pub fixed: bool,
    pub clearance: bool,
    pub writemark: bool,
    pub readmark: bool,
    pub receiver: bool,
    pub nocategory: bool,
    pub category: bool,
    pub datatype: bool,
    pub flag: u8,
}

// What failed where the label is not held already: automatic, that it is over the read mark, under the write mark, under the clearance.
fn unless(held: bool, automatic: bool, over: bool, under: bool, cleared: bool) -> MacFailed
    ensures { result ≡ unless held automatic over under cleared }
{
    MacFailed {
        unset: false,
        fixed: !held & !automatic,
        clearance: !held & !cleared,
        writemark: !held & !under,
        readmark: !held & !over,
        receiver: false,
    }
}

// Of R: l is the object's label, clr the clearance of the process's owner.
fn read_failed(l: Label, r: Process, clr: Label) -> MacFailed
    ensures { result ≡ read_failed l r clr }
{
    let held = l.at_most(r.current);
    let above = r.current.join(l);
    let under = above.at_most(r.writemark);
    let cleared = above.at_most(clr);
    unless(held, r.automatic == 1, true, under, cleared)
}

// Of W and B.
fn write_failed(l: Label, r: Process, clr: Label) -> MacFailed
    ensures { result ≡ write_failed l r clr }
{
    let held = l.same(r.current);
    let low = r.readmark;
    let over = low.at_most(l);
    let under = l.at_most(r.writemark);
    let cleared = l.at_most(clr);
    unless(held, r.automatic == 1, over, under, cleared)
}

// Of set-level, l being the label that it asks for.
fn set_failed(l: Label, r: Process, clr: Label) -> MacFailed
    ensures { result ≡ set_failed l r clr }
{
    let low = r.readmark;
    let over = low.at_most(l);
    let under = l.at_most(r.writemark);
    let cleared = l.at_most(clr);
    unless(false, true, over, under, cleared)
}

// By class, for an untrusted owner.
fn class_failed(k: Class, l: Label, r: Process, clr: Label) -> MacFailed
    ensures { result ≡ class_failed k l r clr }
{
    match k {
        Class::Reads => read_failed(l, r, clr),
        Class::Writes | Class::Both => write_failed(l, r, clr),
        Class::Absent | Class::NoCondition => MacFailed::default(),
    }
}

// On an object.
fn object_failed(k: Class, o: Object, r: Process, u: User) -> MacFailed
    ensures { result ≡ object_failed k o r u }
{
    let l = o.label;
    if !l.is_given() {
        return MacFailed {
            unset: true,
            ..MacFailed::default()
        };
    }
    if u.trusted == 1 {
        return MacFailed::default();
    }
    class_failed(k, l, r, u.clearance)
}

// On send-signal.
fn signal_failed(r: Process, u: User, receiver: Process) -> MacFailed
    ensures { result ≡ signal_failed r u receiver }
{
    let here = r.current;
    let equal = here.same(receiver.current);
    MacFailed {
        receiver: !((u.trusted == 1) | equal),
        ..MacFailed::default()
    }
}

// Of a request that needs no object.
fn alone_failed(k: Action, v: View, c: Call) -> MacFailed
    ensures { result ≡ alone_failed k v c }
{
    match k {
        Action::SendSignal => signal_failed(v.caller, v.owner, v.target.receiver),
        Action::SetLevel => set_failed(Label::of(c.extra, c.target), v.caller, v.owner.clearance),
        _ => MacFailed::default(),
    }
}

// MAC's.
fn mac_failed(k: Action, v: View, c: Call) -> MacFailed
    ensures { result ≡ mac_failed k v c }
{
    if v.switches.mac != 1 {
        return MacFailed::default();
    }
    if requests::needs_object(k, c.extra) {
        return object_failed(modules::class_in(v, c), v.target.object, v.caller, v.owner);
    }
    alone_failed(k, v, c)
}

// FF's.
fn flag_failed(k: Action, v: View, c: Call) -> u8
    ensures { result ≡ flag_failed k v c }
{
    let target = requests::needs_object(k, c.extra);
    if (v.switches.ff == 1) & target {
        return flags::forbidding(
            v.looked.flags,
            c.request,
            modules::class_in(v, c),
            v.target.object.kind,
        );
    }
    0
}

// All conditions that failed of a call that the modules judge.
fn failed_in(k: Action, v: View, c: Call) -> Failed
    ensures { result ≡ failed_in k v c }
{
    let m = mac_failed(k, v, c);
    let target = requests::needs_object(k, c.extra);
    let fc = (v.switches.fc == 1) & target;
    let unset = v.target.object.category == labels::UNSET;
    let fits = (v.target.object.category == rules::GENERAL_CATEGORY)
        | (v.target.object.category == v.owner.role);
    let changes = requests::alters(modules::class_in(v, c)) | (c.request == rules::WRITE_REQUEST);
    let guarded = changes & (v.target.object.datatype == rules::SECURITY_INFORMATION);
    Failed {
        unset: m.unset,
        fixed: m.fixed,
        clearance: m.clearance,
        writemark: m.writemark,
        readmark: m.readmark,
        receiver: m.receiver,
        nocategory: fc & unset,
        category: fc & (!unset & !fits),
        datatype: ((v.switches.sim == 1) & target)
            & (guarded & !(v.owner.role == rules::SECURITY_OFFICER)),
        flag: flag_failed(k, v, c),
    }
}

// The conditions that failed of a call with this number, which looks at v: none where it is neither 12 nor 13.
pub fn failed_by(n: u8, v: View, c: Call) -> Failed
    ensures { result ≡ failed_by n v c }
{
    if answers::is_denial(n) {
        return failed_in(requests::action_of(c.request), v, c);
    }
    Failed::default()
}

// The conditions that failed of a call on a facility.
pub fn failed_of<S: FacilityStore>(s: &S, c: Call) -> Failed
    ensures { result ≡ failed_of (S.facility s.now) c }
{
    let v = calls::view_of(s, c);
    let o = questions::outcome_in(v, c);
    failed_by(o.number(), v, c)
}
