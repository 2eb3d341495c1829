// File flags: what an object inherits, where a flag comes from, and what flags forbid.
#![tactic(auto)]

ghost use Rattle.std.specs.Prelude.{◌≡◌};
ghost use Rattle.rules.specs.FileFlags.{effective, flag_source, forbidding, has};
ghost use Rattle.rules.specs.Modules.{flags_seen};
ghost use Rattle.flags.specs.Lists.{inherits_from, number_plus_1};
ghost use Rattle.state.specs.State.{objects_in};

use in_place::FacilityStore;
use rules::Class;

// The flags, each a bit of an object's byte.
pub const READ_ONLY: u8 = 1;

pub const NO_EXECUTE: u8 = 2;

pub const NO_DELETE: u8 = 4;

pub const SEARCH_ONLY: u8 = 8;

pub const ADD_INHERITED: u8 = 128;

// All bits but no-delete.
const WITHOUT_NO_DELETE: u8 = 251;

// Whether flag m is among v.
pub fn has(m: u8, v: u8) -> bool
    ensures { result ≡ has m v }
{
    (v & m) != 0
}

// The object that object t inherits from.
fn inherits_from<S: FacilityStore>(s: &S, t: u8) -> Option<u8>
    ensures { number_plus_1 result ≡ inherits_from (objects_in (S.facility s.now)) t }
{
    let own = s.object(t);
    if own.parent == 0 || t < own.parent {
        return None;
    }
    let parent = own.parent - 1;
    if has(ADD_INHERITED, own.flags) & (s.object(parent).live == 1) {
        return Some(parent);
    }
    None
}

// The effective flags of object t: up the chain as far as each object inherits.
pub fn effective<S: FacilityStore>(s: &S, t: u8) -> u8
    ensures { result ≡ effective (objects_in (S.facility s.now)) t }
{
    let mut v = s.object(t).flags;
    let mut from = inherits_from(s, t);
    while let Some(i) = from {
        v |= s.object(i).flags & WITHOUT_NO_DELETE;
        from = inherits_from(s, i);
    }
    v
}

// What FF looks at: the effective flags of object t where it is on, so that a facility without it does not pay for a chain.
pub fn seen<S: FacilityStore>(s: &S, t: u8) -> u8
    ensures { result ≡ flags_seen (S.facility s.now) t }
{
    if s.switches().ff == 1 {
        return effective(s, t);
    }
    0
}

// The object whose own flag it is that object t has; 255 where t has none of it.
pub fn source<S: FacilityStore>(s: &S, t: u8, flag: u8) -> u8
    ensures { result ≡ flag_source (objects_in (S.facility s.now)) t flag }
{
    let mut i = t;
    let mut m = flag;
    while !has(m, s.object(i).flags) {
        let Some(parent) = inherits_from(s, i) else {
            return answers::NO_OBJECT;
        };
        i = parent;
        m &= WITHOUT_NO_DELETE;
    }
    i
}

// The first flag among v that forbids a request of class k on an object of a kind; 0 where none does.
pub fn forbidding(v: u8, request: u8, k: Class, kind: u8) -> u8
    ensures { result ≡ forbidding v request k kind }
{
    let changes = requests::alters(k) | (request == rules::WRITE_REQUEST);
    if has(READ_ONLY, v) & changes {
        return READ_ONLY;
    }
    if has(NO_EXECUTE, v) & (request == rules::EXECUTE_REQUEST) {
        return NO_EXECUTE;
    }
    if has(NO_DELETE, v) & (request == rules::DELETE_REQUEST) {
        return NO_DELETE;
    }
    if has(SEARCH_ONLY, v)
        & ((kind == rules::DIRECTORY_KIND) & (request != rules::SEARCH_REQUEST))
    {
        return SEARCH_ONLY;
    }
    0
}
