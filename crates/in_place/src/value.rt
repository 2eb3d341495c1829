// A facility as a value.
ghost use Rattle.std.specs.Prelude.{◌≡◌, refl};
ghost use Rattle.std.proofs.Common.{◌∙◌, ap};

use crate::FacilityStore;
use labels::Label;
use state::{Facility, Object, Process, Switches, User};

impl FacilityStore for Facility {
    ghost facility = { λ f. f };

    ghost becomes = { λ f g h. g ≡ h };

    ghost stores = { λ s t f h. h };

    ghost unchanged = { λ s. refl };

    ghost then = { λ s t w f h e k. k ∙ ap h e };

    fn switches(&self) -> Switches {
        Switches {
            mac: self.mac,
            fc: self.fc,
            sim: self.sim,
            ff: self.ff,
        }
    }

    fn users(&self) -> u8 {
        self.users
    }

    fn entered(&self) -> u8 {
        self.entered
    }

    fn user(&self, u: u8) -> User {
        let i = u as usize;
        User {
            clearance: Label::at(&self.clearances, &self.clearancesets, i),
            role: labels::at(&self.roles, i),
            trusted: labels::at(&self.trusts, i),
        }
    }

    fn process(&self, p: u8) -> Process {
        Facility::process(self, p)
    }

    fn object(&self, t: u8) -> Object {
        let i = t as usize;
        Object {
            live: labels::at(&self.lives, i),
            kind: labels::at(&self.kinds, i),
            label: Label::at(&self.levels, &self.sets, i),
            category: labels::at(&self.categories, i),
            datatype: labels::at(&self.datatypes, i),
            flags: labels::at(&self.flags, i),
            parent: labels::at(&self.parents, i),
        }
    }

    fn opens(&self, p: u8, t: u8) -> u8 {
        labels::at(&self.opens, opens::mark_place(p, t) as usize)
    }

    fn refusals(&self, u: u8) -> u32 {
        self.refusals.get(u as usize).copied().unwrap_or(0)
    }

    fn blank(&mut self, switches: Switches) {
        *self = Facility::blank(switches);
    }

    fn add_user(&mut self, u: User) {
        Facility::add_user(self, u);
    }

    fn add_object(&mut self, o: Object) {
        Facility::add_object(self, o);
    }

    fn put_process(&mut self, p: u8, r: Process) {
        *self = self.with_process(p, r);
    }

    fn put_marks(&mut self, p: u8, t: u8, v: u8) {
        labels::put(&mut self.opens, opens::mark_place(p, t) as usize, v);
    }

    fn close_process(&mut self, p: u8) {
        opens::close_process(&mut self.opens, p);
    }

    fn copy_process(&mut self, p: u8, t: u8) {
        opens::copy_process(&mut self.opens, p, t);
    }

    fn close_object(&mut self, t: u8) {
        opens::close_object(&mut self.opens, t);
    }

    fn drop_object(&mut self, t: u8) {
        labels::put(&mut self.lives, t as usize, 0);
    }

    fn count_refusal(&mut self, u: u8) {
        Facility::count_refusal(self, u);
    }

    fn terminate(&mut self, p: u8) {
        *self = self.terminated(p);
    }

    fn clone_process(&mut self, p: u8, t: u8) {
        *self = self.cloned(p, t);
    }

    fn open(&mut self, p: u8, t: u8, modes: u8) {
        *self = self.opened(p, t, modes);
    }
}
