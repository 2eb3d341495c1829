// A facility in its bytes, read and changed where they are.
ghost use Rattle.std.specs.Prelude.{◌-◌, ◌≡◌, refl};
ghost use Rattle.in_place.specs.Layout.{facility_at, field_of, part};
ghost use Rattle.in_place.specs.Stores.{Becomes, store_object, store_user};
ghost use Rattle.in_place.specs.Becoming.{becomes_then};
ghost use Rattle.labels.specs.Labels.{label};
ghost use Rattle.labels.specs.Decisions.{at};

use crate::FacilityStore;
use crate::layout::*;
use labels::Label;
use state::{Object, Process, Switches, User};

// The attributes of user i, and of object i.
fn put_user(s: &mut [u8; SIZE], i: usize, u: User)
    ensures { field_of s.new ≡ store_user (field_of s.old) i u }
{
    CLEARANCES.put(s, i, u.clearance.level);
    ROLES.put(s, i, u.role);
    TRUSTS.put(s, i, u.trusted);
    CLEARANCE_SETS.put(s, i, u.clearance.set);
}

fn put_object(s: &mut [u8; SIZE], i: usize, o: Object)
    ensures { field_of s.new ≡ store_object (field_of s.old) i o }
{
    LIVES.put(s, i, o.live);
    KINDS.put(s, i, o.kind);
    LEVELS.put(s, i, o.label.level);
    CATEGORIES.put(s, i, o.category);
    DATATYPES.put(s, i, o.datatype);
    FLAGS.put(s, i, o.flags);
    PARENTS.put(s, i, o.parent);
    SETS.put(s, i, o.label.set);
}

impl FacilityStore for [u8; SIZE] {
    ghost facility = { facility_at };

    ghost becomes = { Becomes };

    ghost stores = { λ s t f b. b.0 };

    ghost unchanged = { λ s. (refl, refl) };

    ghost then = { becomes_then };

    fn switches(&self) -> Switches {
        Switches {
            mac: MAC.byte(self, 0),
            fc: FC.byte(self, 0),
            sim: SIM.byte(self, 0),
            ff: FF.byte(self, 0),
        }
    }

    fn users(&self) -> u8 {
        USERS.byte(self, 0)
    }

    fn entered(&self) -> u8 {
        ENTERED.byte(self, 0)
    }

    fn user(&self, u: u8) -> User {
        let i = u as usize;
        User {
            clearance: Label::at(CLEARANCES.of(self), CLEARANCE_SETS.of(self), i),
            role: ROLES.byte(self, i),
            trusted: TRUSTS.byte(self, i),
        }
    }

    fn process(&self, p: u8) -> Process {
        let i = p as usize;
        Process {
            running: RUNNINGS.byte(self, i),
            owner: OWNERS.byte(self, i),
            current: Label::at(CURRENTS.of(self), CURRENT_SETS.of(self), i),
            readmark: Label::at(READMARKS.of(self), READ_SETS.of(self), i),
            writemark: Label::at(WRITEMARKS.of(self), WRITE_SETS.of(self), i),
            automatic: AUTOMATICS.byte(self, i),
            moves: MOVES.byte(self, i),
        }
    }

    fn object(&self, t: u8) -> Object {
        let i = t as usize;
        Object {
            live: LIVES.byte(self, i),
            kind: KINDS.byte(self, i),
            label: Label::at(LEVELS.of(self), SETS.of(self), i),
            category: CATEGORIES.byte(self, i),
            datatype: DATATYPES.byte(self, i),
            flags: FLAGS.byte(self, i),
            parent: PARENTS.byte(self, i),
        }
    }

    fn opens(&self, p: u8, t: u8) -> u8 {
        OPENS.byte(self, opens::mark_place(p, t) as usize)
    }

    // Four bytes, low byte first.
    fn refusals(&self, u: u8) -> u32 {
        let (counters, _) = REFUSALS.of(self).as_chunks::<4>();
        match counters.get(u as usize) {
            Some(bytes) => u32::from_le_bytes(*bytes),
            None => 0,
        }
    }

    fn blank(&mut self, switches: Switches) {
        self[..OPENS.end].fill(0);
        self[REFUSALS.start()..WRITE_SETS.end].fill(0);
        MAC.put(self, 0, switches.mac);
        FC.put(self, 0, switches.fc);
        SIM.put(self, 0, switches.sim);
        FF.put(self, 0, switches.ff);
    }

    fn add_user(&mut self, u: User) {
        let n = self.users();
        if (n as usize) < state::USERS {
            put_user(self, n as usize, u);
            USERS.put(self, 0, n + 1);
        }
    }

    fn add_object(&mut self, o: Object) {
        let n = self.entered();
        if n < opens::OBJECTS {
            put_object(self, n as usize, o);
            ENTERED.put(self, 0, n + 1);
        }
    }

    fn put_process(&mut self, p: u8, r: Process) {
        let i = p as usize;
        RUNNINGS.put(self, i, r.running);
        OWNERS.put(self, i, r.owner);
        CURRENTS.put(self, i, r.current.level);
        READMARKS.put(self, i, r.readmark.level);
        WRITEMARKS.put(self, i, r.writemark.level);
        AUTOMATICS.put(self, i, r.automatic);
        MOVES.put(self, i, r.moves);
        CURRENT_SETS.put(self, i, r.current.set);
        READ_SETS.put(self, i, r.readmark.set);
        WRITE_SETS.put(self, i, r.writemark.set);
    }

    fn put_marks(&mut self, p: u8, t: u8, v: u8) {
        OPENS.put(self, opens::mark_place(p, t) as usize, v);
    }

    // The opens are lent to those who know them.
    fn close_process(&mut self, p: u8) {
        opens::close_process(&mut self[OPENS.start()..OPENS.end], p);
    }

    fn copy_process(&mut self, p: u8, t: u8) {
        opens::copy_process(&mut self[OPENS.start()..OPENS.end], p, t);
    }

    fn close_object(&mut self, t: u8) {
        opens::close_object(&mut self[OPENS.start()..OPENS.end], t);
    }

    fn drop_object(&mut self, t: u8) {
        LIVES.put(self, t as usize, 0);
    }

    fn count_refusal(&mut self, u: u8) {
        let i = u as usize;
        if i < state::USERS {
            let at = REFUSALS.start() + 4 * i;
            let n = self.refusals(u).saturating_add(1);
            self[at..at + 4].copy_from_slice(&n.to_le_bytes());
        }
    }
}
