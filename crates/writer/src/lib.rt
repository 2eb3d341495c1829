// Set-ups: writing one out into a lent buffer.
#![tactic(auto)]

ghost use Rattle.std.specs.Prelude.{◌*◌, ◌+◌, ◌≤◌, [], ◌∷◌, ◌≡◌};
ghost use Rattle.rules.specs.Setup.{new_number, new_parent, object_record};
ghost use Rattle.rules.specs.Setup.{renumbered, setup_records, switches_record, user_record, write_setup};
ghost use Rattle.writer.specs.Writing.{live_record, object_records, Stored, user_records};
ghost use Rattle.state.specs.State.{objects_in, users_in};

use answers::{NoRoom, WriteOutcome};
use in_place::FacilityStore;
use rules::SetupRecord;
use state::{Object, Switches, User};

// The records that are written out for the switches, a user and an object.
fn switches_record(s: Switches) -> SetupRecord
    ensures { result ≡ switches_record s }
{
    SetupRecord {
        kind: rules::SWITCHES_RECORD,
        one: s.mac,
        two: s.fc,
        three: s.sim,
        four: s.ff,
        five: 0,
        six: 0,
        seven: 0,
    }
}

fn user_record(u: User) -> SetupRecord
    ensures { result ≡ user_record u }
{
    SetupRecord {
        kind: rules::USER_RECORD,
        one: u.clearance.level,
        two: u.role,
        three: u.trusted,
        four: u.clearance.set,
        five: 0,
        six: 0,
        seven: 0,
    }
}

fn object_record(o: Object) -> SetupRecord
    ensures { result ≡ object_record o }
{
    SetupRecord {
        kind: rules::OBJECT_RECORD,
        one: o.kind,
        two: o.label.level,
        three: o.category,
        four: o.datatype,
        five: o.flags,
        six: o.parent,
        seven: o.label.set,
    }
}

// A record is stored at a place where it fits whole. Answers the place behind it, where it fits or not.
fn put_record(out: &mut [u8], place: usize, r: SetupRecord) -> usize
    requires { place ≤ 131072 }
    ensures { Stored out.old place (r ∷ []) out.new result }
{
    let next = place + 8;
    if out.len() < next {
        return next;
    }
    out[place] = r.kind;
    out[place + 1] = r.one;
    out[place + 2] = r.two;
    out[place + 3] = r.three;
    out[place + 4] = r.four;
    out[place + 5] = r.five;
    out[place + 6] = r.six;
    out[place + 7] = r.seven;
    next
}

// The section of users.
fn put_users<S: FacilityStore>(out: &mut [u8], start: usize, s: &S) -> usize
    requires { start ≤ 65536 }
    ensures stored { Stored out.old start (user_records (S.facility s.now).users (users_in (S.facility s.now))) out.new result }
    ensures within { result ≤ start + 8 * 255 }
{
    let mut place = start;
    for u in 0..s.users() {
        place = put_record(out, place, user_record(s.user(u)));
    }
    place
}

// The new number of object t: how many live ones are before it. It is counted anew for each parent: there are few objects.
fn new_number<S: FacilityStore>(s: &S, t: u8) -> u8
    ensures { result ≡ new_number (objects_in (S.facility s.now)) t }
{
    let mut n: u8 = 0;
    for k in 0..t {
        if s.object(k).live == 1 {
            n += 1;
        }
    }
    n
}

// A parent, as its number plus 1, by its new number; none for a deleted one.
fn new_parent<S: FacilityStore>(s: &S, parent: u8) -> u8
    ensures { result ≡ new_parent (objects_in (S.facility s.now)) parent }
{
    if parent == 0 {
        return 0;
    }
    let t = parent - 1;
    if s.object(t).live != 1 {
        return 0;
    }
    new_number(s, t) + 1
}

// The object with its parent by its new number.
fn renumbered<S: FacilityStore>(s: &S, o: Object) -> Object
    ensures { result ≡ renumbered (objects_in (S.facility s.now)) o }
{
    let parent = new_parent(s, o.parent);
    Object { parent, ..o }
}

// A live object's record, with its parent's new number; none of one that is not live.
fn put_live<S: FacilityStore>(out: &mut [u8], place: usize, s: &S, o: Object) -> usize
    requires { place ≤ 131072 }
    ensures { Stored out.old place (live_record (objects_in (S.facility s.now)) o) out.new result }
{
    if o.live == 1 {
        let r = object_record(renumbered(s, o));
        return put_record(out, place, r);
    }
    place
}

// The section of objects: the live ones of those that were entered.
fn put_objects<S: FacilityStore>(out: &mut [u8], start: usize, s: &S) -> usize
    requires { start ≤ 65536 }
    ensures { Stored out.old start (object_records (S.facility s.now).entered (objects_in (S.facility s.now))) out.new result }
{
    let mut place = start;
    for t in 0..s.entered() {
        place = put_live(out, place, s, s.object(t));
    }
    place
}

// All sections, one after the other, as far as they fit. Answers the length of the whole.
fn put_sections<S: FacilityStore>(out: &mut [u8], s: &S) -> usize
    ensures { Stored out.old 0 (setup_records (S.facility s.now)) out.new result }
{
    let users = put_record(out, 0, switches_record(s.switches()));
    let objects = put_users(out, users, s);
    put_objects(out, objects, s)
}

// Writes a facility's set-up into a lent buffer that holds it all; else the buffer stays as it is. A first pass over none of the buffer tells the length.
pub fn write_setup<S: FacilityStore>(s: &S, out: &mut [u8]) -> WriteOutcome
    ensures value { result ≡ (write_setup (S.facility s.now) out.old).outcome }
    ensures out_after { out.new ≡ (write_setup (S.facility s.now) out.old).buffer }
{
    let need = put_sections(&mut out[..0], s);
    if out.len() < need {
        return Err(NoRoom);
    }
    Ok(put_sections(out, s))
}
