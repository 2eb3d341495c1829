// A facility, wherever it is: in a value, or in the bytes of a C struct.
ghost use Rattle.labels.specs.Decisions.{at};
ghost use Rattle.opens.specs.Opens.{close_object, close_process, copy_process};
ghost use Rattle.state.specs.declared.Facility.{Facility};
ghost use Rattle.state.specs.declared.Process.{Process};
ghost use Rattle.opens.specs.declared.OpenChange.{OpenChange};
ghost use Rattle.state.specs.State.{add_object, add_user, blank, cloned, counted, deleted, drop_object, object_of, open_by};
ghost use Rattle.state.specs.State.{opened, opens_of, process_of, put_marks, put_opens, put_process, refusals_of, switches_of, terminated, user_of};
ghost use Rattle.std.specs.Prelude.{◌≡◌};

use opens::OpenChange;
use state::{Object, Process, Switches, User};

// Numbers that are none read as zeros, and change nothing.
pub trait FacilityStore {
    // The facility that is stored.
    ghost facility: { Self → Facility };

    // The second store has this facility, and what is no part of a facility as the first has it.
    ghost becomes: { Self → Self → Facility → Type 0 };

    fn switches(&self) -> Switches
        ensures { result ≡ switches_of (facility self.now) };

    // How many users there are, and how many objects were entered.
    fn users(&self) -> u8
        ensures { result ≡ (facility self.now).users };

    fn entered(&self) -> u8
        ensures { result ≡ (facility self.now).entered };

    fn user(&self, u: u8) -> User
        ensures { result ≡ user_of (facility self.now) u };

    fn process(&self, p: u8) -> Process
        ensures { result ≡ process_of (facility self.now) p };

    fn object(&self, t: u8) -> Object
        ensures { result ≡ object_of (facility self.now) t };

    // How process p has object t open.
    fn opens(&self, p: u8, t: u8) -> u8
        ensures { result ≡ opens_of (facility self.now) p t };

    // The counter of a user.
    fn refusals(&self, u: u8) -> u32
        ensures { result ≡ refusals_of (facility self.now) u };

    // No user, no object, no process, no refusal, and these switches.
    fn blank(&mut self, switches: Switches)
        ensures { becomes self.old self.new (blank switches) };

    // The next user number is given to a user, and the next object number to an object, where there is one.
    fn add_user(&mut self, u: User)
        ensures { becomes self.old self.new (add_user (facility self.old) u) };

    fn add_object(&mut self, o: Object)
        ensures { becomes self.old self.new (add_object (facility self.old) o) };

    // Process p becomes r.
    fn put_process(&mut self, p: u8, r: Process)
        ensures { becomes self.old self.new (put_process (facility self.old) p r) };

    // The marks of process p on object t become v.
    fn put_marks(&mut self, p: u8, t: u8, v: u8)
        ensures { becomes self.old self.new (put_marks (facility self.old) p t v) };

    // All marks of process p go; those of process t become those of p; all on object t go.
    fn close_process(&mut self, p: u8)
        ensures { becomes self.old self.new (put_opens (facility self.old) (close_process (facility self.old).opens p)) };

    fn copy_process(&mut self, p: u8, t: u8)
        ensures { becomes self.old self.new (put_opens (facility self.old) (copy_process (facility self.old).opens p t)) };

    fn close_object(&mut self, t: u8)
        ensures { becomes self.old self.new (put_opens (facility self.old) (close_object (facility self.old).opens t)) };

    // Object t is not live any more.
    fn drop_object(&mut self, t: u8)
        ensures { becomes self.old self.new (drop_object (facility self.old) t) };

    // One more refusal of user u; at its stop the counter stays.
    fn count_refusal(&mut self, u: u8)
        ensures { becomes self.old self.new (counted (facility self.old) u) };

    // Process p terminates.
    fn terminate(&mut self, p: u8)
        ensures { becomes self.old self.new (terminated (facility self.old) p) }
    {
        self.put_process(p, Process::none());
        self.close_process(p);
    }

    // Process t becomes a clone of p.
    fn clone_process(&mut self, p: u8, t: u8)
        ensures { becomes self.old self.new (cloned (facility self.old) p t) }
    {
        let r = self.process(p);
        self.put_process(t, r);
        self.copy_process(p, t);
    }

    // Process p opens object t in the modes.
    fn open(&mut self, p: u8, t: u8, modes: u8)
        ensures { becomes self.old self.new (opened (facility self.old) p t modes) }
    {
        let marks = self.opens(p, t);
        self.put_marks(p, t, opens::add_modes(marks, modes));
    }

    // What a store has become is what it stores; a store that nothing changed; and one that was changed twice.
    ghost stores: { (s t : Self) (f : Facility) → becomes s t f → facility t ≡ f };

    ghost unchanged: { (s : Self) → becomes s s (facility s) };

    ghost then: { (s t w : Self) (f : Facility) (h : Facility → Facility) → becomes s t f → becomes t w (h (facility t)) → becomes s w (h f) };

    // Object t is deleted, with all opens on it.
    final fn delete(&mut self, t: u8)
        ensures { becomes self.old self.new (deleted (facility self.old) t) }
    {
        self.close_object(t);
        self.drop_object(t);
    }

    // What a request of process p on object t does to the opens.
    final fn change_opens(&mut self, p: u8, t: u8, change: OpenChange)
        ensures { becomes self.old self.new (open_by change (facility self.old) p t) }
    {
        match change {
            OpenChange::Keep => {}
            OpenChange::Add(modes) => self.open(p, t, modes),
            OpenChange::Close => self.put_marks(p, t, 0),
            OpenChange::CloseAll => self.delete(t),
        }
    }
}
