// The state: processes, users, objects and the facility that holds them.
#![tactic(auto)]

ghost use Rattle.std.specs.Prelude.{◌≡◌};
ghost use Rattle.state.specs.State.{add_object, add_user, all_off, blank, changed, cloned, closed, counted, deleted, fresh_process, no_process};
ghost use Rattle.state.specs.State.{marked, open_by, opened, process_of, put_process, terminated};

use labels::Label;
use opens::OpenChange;

// How many users, processes and objects there are, and so pairs of a process and an object.
pub const USERS: usize = 16;

pub const PROCESSES: usize = opens::PROCESSES as usize;

pub const OBJECTS: usize = opens::OBJECTS as usize;

pub const PAIRS: usize = opens::PAIRS as usize;

// Where each counter of refusals stops.
pub const MOST_REFUSALS: u32 = 4294967295;

// Where the counter of a process's moves stops.
pub const MOST_MOVES: u8 = 255;

// A call: four bytes.
#[derive(Clone, Copy)]
pub struct Call {
    pub request: u8,
    pub process: u8,
    pub target: u8,
    pub extra: u8,
}

// A process: `current`, `readmark` and `writemark` move with its calls.
#[repr(C)]
#[derive(Clone, Copy, Default)]
pub struct Process {
    pub running: u8,
    pub owner: u8,
    pub current: Label,
    pub readmark: Label,
    pub writemark: Label,
    pub automatic: u8,
    // How often its current label moved by itself: by R, W or B, not by set-level.
    pub moves: u8,
}

// A user: the clearance is fixed by the set-up.
#[repr(C)]
#[derive(Clone, Copy, Default)]
pub struct User {
    pub clearance: Label,
    pub role: u8,
    pub trusted: u8,
}

#[repr(C)]
#[derive(Clone, Copy)]
pub struct Object {
    pub live: u8,
    pub kind: u8,
    pub label: Label,
    pub category: u8,
    pub datatype: u8,
    // 1 read-only, 2 no-execute, 4 no-delete, 8 search-only, 128 add-inherited.
    pub flags: u8,
    // The parent directory's number plus 1, 0 for none.
    pub parent: u8,
}

// Which modules are on, each 0 or 1.
#[repr(C)]
#[derive(Clone, Copy, Default)]
pub struct Switches {
    pub mac: u8,
    pub fc: u8,
    pub sim: u8,
    pub ff: u8,
}

// What a call changes; p and t are numbers of processes or objects.
#[derive(Clone, Copy)]
pub enum Change {
    NoChange,
    // Process p becomes r.
    PutProcess {
        p: u8,
        r: Process,
    },
    // Process t becomes a clone of p.
    CloneProcess {
        p: u8,
        t: u8,
    },
    // Process p terminates.
    EndProcess {
        p: u8,
    },
    // Process p becomes r, and the opens of object t change.
    UseObject {
        p: u8,
        r: Process,
        t: u8,
        opens: OpenChange,
    },
    // Process p becomes r, and an object is entered.
    CreateObject {
        p: u8,
        r: Process,
        o: Object,
    },
    EnterObject {
        o: Object,
    },
    // One more refusal is counted for user u.
    CountRefusal {
        u: u8,
    },
}

#[repr(C)]
#[derive(Clone, Copy)]
pub struct Facility {
    // Switches, each 0 or 1.
    pub mac: u8,
    pub fc: u8,
    pub sim: u8,
    // Users, by user number.
    pub users: u8,
    pub clearances: [u8; USERS],
    pub roles: [u8; USERS],
    pub trusts: [u8; USERS],
    // Objects, by object number; `entered` counts the deleted ones too.
    pub entered: u8,
    pub lives: [u8; OBJECTS],
    pub kinds: [u8; OBJECTS],
    pub levels: [u8; OBJECTS],
    pub categories: [u8; OBJECTS],
    pub datatypes: [u8; OBJECTS],
    // Processes, by process number.
    pub runnings: [u8; PROCESSES],
    pub owners: [u8; PROCESSES],
    pub currents: [u8; PROCESSES],
    pub readmarks: [u8; PROCESSES],
    pub writemarks: [u8; PROCESSES],
    pub automatics: [u8; PROCESSES],
    // At process * 128 + object: bit 0 open for reading, bit 1 open for writing.
    pub opens: [u8; PAIRS],
    // Calls refused with 12 or 13, by user: the owner of the calling process. Each up to 4,294,967,295.
    pub refusals: [u32; USERS],
    // What came later stands behind, so that no earlier field moves: the fourth switch, objects' flags and parents by object number, how often
    // the label of each process moved by itself, and the sets of clearances, objects, current labels and marks.
    pub ff: u8,
    pub flags: [u8; OBJECTS],
    pub parents: [u8; OBJECTS],
    pub moves: [u8; PROCESSES],
    pub clearancesets: [u8; USERS],
    pub sets: [u8; OBJECTS],
    pub currentsets: [u8; PROCESSES],
    pub readsets: [u8; PROCESSES],
    pub writesets: [u8; PROCESSES],
}

impl Process {
    // The top level, at which a write mark starts.
    pub const TOP: u8 = 15;

    // The process just after the login of user `owner`.
    pub fn fresh(owner: u8) -> Process
        ensures { result ≡ fresh_process owner }
    {
        Process {
            running: 1,
            owner,
            current: Label::default(),
            readmark: Label::default(),
            writemark: Label {
                level: Self::TOP,
                set: labels::ALL_CATEGORIES,
            },
            automatic: 1,
            moves: 0,
        }
    }

    // The process of a number that does not run.
    pub fn none() -> Process
        ensures { result ≡ no_process }
    {
        Process::default()
    }
}

impl Switches {
    pub fn off() -> Switches
        ensures { result ≡ all_off }
    {
        Switches::default()
    }
}

// Methods by value hand the new state back.
impl Facility {
    // The fresh facility of one switches record: no user, no object, no process, no refusal.
    pub fn blank(s: Switches) -> Facility
        ensures { result ≡ blank s }
    {
        Facility {
            mac: s.mac,
            fc: s.fc,
            sim: s.sim,
            users: 0,
            clearances: [0; USERS],
            roles: [0; USERS],
            trusts: [0; USERS],
            entered: 0,
            lives: [0; OBJECTS],
            kinds: [0; OBJECTS],
            levels: [0; OBJECTS],
            categories: [0; OBJECTS],
            datatypes: [0; OBJECTS],
            runnings: [0; PROCESSES],
            owners: [0; PROCESSES],
            currents: [0; PROCESSES],
            readmarks: [0; PROCESSES],
            writemarks: [0; PROCESSES],
            automatics: [0; PROCESSES],
            opens: [0; PAIRS],
            refusals: [0; USERS],
            ff: s.ff,
            flags: [0; OBJECTS],
            parents: [0; OBJECTS],
            moves: [0; PROCESSES],
            clearancesets: [0; USERS],
            sets: [0; OBJECTS],
            currentsets: [0; PROCESSES],
            readsets: [0; PROCESSES],
            writesets: [0; PROCESSES],
        }
    }

    // The process of a number; of one that is none all is 0.
    pub fn process(&self, p: u8) -> Process
        ensures { result ≡ process_of self.now p }
    {
        let i = p as usize;
        Process {
            running: labels::at(&self.runnings, i),
            owner: labels::at(&self.owners, i),
            current: Label::at(&self.currents, &self.currentsets, i),
            readmark: Label::at(&self.readmarks, &self.readsets, i),
            writemark: Label::at(&self.writemarks, &self.writesets, i),
            automatic: labels::at(&self.automatics, i),
            moves: labels::at(&self.moves, i),
        }
    }

    // Process p becomes r: it moves, or it is a login's.
    pub fn with_process(mut self, p: u8, r: Process) -> Facility
        ensures { result ≡ put_process self p r }
    {
        let i = p as usize;
        if i < PROCESSES {
            self.runnings[i] = r.running;
            self.owners[i] = r.owner;
            self.currents[i] = r.current.level;
            self.readmarks[i] = r.readmark.level;
            self.writemarks[i] = r.writemark.level;
            self.automatics[i] = r.automatic;
            self.moves[i] = r.moves;
            self.currentsets[i] = r.current.set;
            self.readsets[i] = r.readmark.set;
            self.writesets[i] = r.writemark.set;
        }
        self
    }

    // The marks of process p on object t change.
    fn with_marked(mut self, p: u8, t: u8, change: OpenChange) -> Facility
        ensures { result ≡ marked self p t change }
    {
        let i = opens::mark_place(p, t) as usize;
        let marks = labels::at(&self.opens, i);
        labels::put(&mut self.opens, i, opens::marks_after(change, marks));
        self
    }

    // Process p opens object t in the modes.
    pub fn opened(self, p: u8, t: u8, modes: u8) -> Facility
        ensures { result ≡ opened self p t modes }
    {
        self.with_marked(p, t, OpenChange::Add(modes))
    }

    // Process p becomes r and closes object t.
    pub fn closed(self, p: u8, r: Process, t: u8) -> Facility
        ensures { result ≡ closed (put_process self p r) p t }
    {
        self.with_process(p, r).with_marked(p, t, OpenChange::Close)
    }

    // Process t becomes a clone of p.
    pub fn cloned(self, p: u8, t: u8) -> Facility
        ensures { result ≡ cloned self p t }
    {
        let r = self.process(p);
        let mut f = self.with_process(t, r);
        opens::copy_process(&mut f.opens, p, t);
        f
    }

    // Process p terminates.
    pub fn terminated(self, p: u8) -> Facility
        ensures { result ≡ terminated self p }
    {
        let mut f = self.with_process(p, Process::none());
        opens::close_process(&mut f.opens, p);
        f
    }

    // Object t is deleted, with all opens on it.
    pub fn deleted(mut self, t: u8) -> Facility
        ensures { result ≡ deleted self t }
    {
        opens::close_object(&mut self.opens, t);
        labels::put(&mut self.lives, t as usize, 0);
        self
    }

    // The next object number is given to an object, where there is one; so with users. Each has one body: the store of a value calls it where the
    // facility is, and the method by value hands the new state back.
    pub fn add_object(&mut self, o: Object)
        ensures { self.new ≡ add_object self.old o }
    {
        let i = self.entered as usize;
        if i < OBJECTS {
            self.lives[i] = o.live;
            self.kinds[i] = o.kind;
            self.levels[i] = o.label.level;
            self.categories[i] = o.category;
            self.datatypes[i] = o.datatype;
            self.flags[i] = o.flags;
            self.parents[i] = o.parent;
            self.sets[i] = o.label.set;
            self.entered += 1;
        }
    }

    pub fn with_object(mut self, o: Object) -> Facility
        ensures { result ≡ add_object self o }
    {
        self.add_object(o);
        self
    }

    pub fn add_user(&mut self, u: User)
        ensures { self.new ≡ add_user self.old u }
    {
        let i = self.users as usize;
        if i < USERS {
            self.clearances[i] = u.clearance.level;
            self.roles[i] = u.role;
            self.trusts[i] = u.trusted;
            self.clearancesets[i] = u.clearance.set;
            self.users += 1;
        }
    }

    pub fn with_user(mut self, u: User) -> Facility
        ensures { result ≡ add_user self u }
    {
        self.add_user(u);
        self
    }

    // One more refusal of a user; at its stop the user's counter stays.
    pub fn count_refusal(&mut self, u: u8)
        ensures { self.new ≡ counted self.old u }
    {
        let i = u as usize;
        if i < USERS && self.refusals[i] < MOST_REFUSALS {
            self.refusals[i] += 1;
        }
    }

    pub fn counted(mut self, u: u8) -> Facility
        ensures { result ≡ counted self u }
    {
        self.count_refusal(u);
        self
    }

    // What a request on an object does: process p becomes r, and the opens of object t change.
    fn used(self, p: u8, r: Process, t: u8, opens: OpenChange) -> Facility
        ensures { result ≡ open_by opens (put_process self p r) p t }
    {
        match opens {
            OpenChange::Keep => self.with_process(p, r),
            OpenChange::Add(modes) => self.with_process(p, r).opened(p, t, modes),
            OpenChange::Close => self.closed(p, r, t),
            OpenChange::CloseAll => self.with_process(p, r).deleted(t),
        }
    }

    // The facility after a change.
    pub fn changed(self, change: Change) -> Facility
        ensures { result ≡ changed self change }
    {
        match change {
            Change::NoChange => self,
            Change::PutProcess { p, r } => self.with_process(p, r),
            Change::CloneProcess { p, t } => self.cloned(p, t),
            Change::EndProcess { p } => self.terminated(p),
            Change::UseObject { p, r, t, opens } => self.used(p, r, t, opens),
            Change::CreateObject { p, r, o } => self.with_process(p, r).with_object(o),
            Change::EnterObject { o } => self.with_object(o),
            Change::CountRefusal { u } => self.counted(u),
        }
    }
}
