// What a module answers, how answers are combined, and what a call, reading a set-up and writing one out come to.
#![tactic(auto)]

ghost use Rattle.std.specs.Prelude.{◌≡◌};
ghost use Rattle.answers.specs.Answers.{code, combine, is_not_granted, is_undefined, grant};
ghost use Rattle.answers.specs.Outcomes.{answers_from, outcome_of, number_of, answers_of, object_number_of, outcome_numbers, denies};
ghost use Rattle.answers.specs.Outcomes.{question, refusal_number};

// The object number that a call has which gives none.
pub const NO_OBJECT: u8 = 255;

// What a module answers to a call, in the order of the paper's numbers.
#[derive(Clone, Copy, Default, PartialEq, Eq, PartialOrd, Ord)]
pub enum Answer {
    #[default]
    NotCared,
    Granted,
    NotGranted,
    Undefined,
}

// The answers that a call returns: one of each module, and their combination.
#[derive(Clone, Copy, Default, PartialEq, Eq)]
pub struct Answers {
    pub mac: Answer,
    pub fc: Answer,
    pub sim: Answer,
    pub ff: Answer,
    pub combined: Answer,
}

// What a call comes to.
#[derive(Clone, Copy, PartialEq, Eq)]
pub enum Outcome {
    // Number 0. `object` is the number that create gave, 255 with every other request.
    Accepted { answers: Answers, object: u8 },
    // Number 12 or 13: the modules' combined answer refuses.
    Denied { answers: Answers, number: u8 },
    // Number 1 to 11: the modules are not asked.
    Refused { number: u8 },
}

// Why a call or a set-up is refused, in the order of the paper's numbers. Number 18 is `NoRoom`.
#[derive(Clone, Copy, PartialEq, Eq)]
pub enum Refusal {
    NoSuchRequest = 1,
    NoSuchProcess = 2,
    NotRunning = 3,
    NotFree = 4,
    NoSuchUser = 5,
    NotLive = 6,
    KindLacksRequest = 7,
    NoSuchKind = 8,
    NotOpen = 9,
    AllObjectsEntered = 10,
    NoSuchLevel = 11,
    NotGranted = 12,
    Undefined = 13,
    Length = 14,
    Place = 15,
    TooMany = 16,
    Byte = 17,
    Parent = 19,
}

// Why a set-up is refused: number 14 to 17 or 19, and the index of the record that is refused.
#[derive(Clone, Copy)]
pub struct SetupRefusal {
    pub number: u8,
    pub index: u16,
}

// What reading a set-up comes to.
pub type SetupOutcome = Result<(), SetupRefusal>;

// Number 18: the lent buffer does not hold the set-up.
#[derive(Clone, Copy)]
pub struct NoRoom;

// What writing a set-up out comes to: the number of bytes written.
pub type WriteOutcome = Result<usize, NoRoom>;

impl Answer {
    // The paper's number of an answer.
    pub fn code(self) -> u8
        ensures { result ≡ code self }
    {
        self as u8
    }

    // Table 4.7: the one with the larger number.
    fn combine(self, other: Answer) -> Answer
        ensures { result ≡ combine self other }
    {
        self.max(other)
    }

    pub fn is_not_granted(self) -> bool
        ensures { result ≡ is_not_granted self }
    {
        self == Answer::NotGranted
    }

    pub fn is_undefined(self) -> bool
        ensures { result ≡ is_undefined self }
    {
        self == Answer::Undefined
    }

    // Granted where a test holds, else not granted.
    pub fn grant(test: bool) -> Answer
        ensures { result ≡ grant test }
    {
        if test {
            Answer::Granted
        } else {
            Answer::NotGranted
        }
    }
}

impl Answers {
    // The answers of the four modules, with their combination.
    pub fn of(mac: Answer, fc: Answer, sim: Answer, ff: Answer) -> Answers
        ensures { result ≡ answers_from mac fc sim ff }
    {
        let last = sim.combine(ff);
        let rest = fc.combine(last);
        let combined = mac.combine(rest);
        Answers {
            mac,
            fc,
            sim,
            ff,
            combined,
        }
    }
}

impl Outcome {
    pub fn of(number: u8, answers: Answers, object: u8) -> Outcome
        ensures { result ≡ outcome_of number answers object }
    {
        if number == 0 {
            return Outcome::Accepted { answers, object };
        }
        if is_denial(number) {
            return Outcome::Denied { answers, number };
        }
        Outcome::Refused { number }
    }

    // The paper's number, answers and object number.
    pub fn number(self) -> u8
        ensures { result ≡ number_of self }
    {
        match self {
            Outcome::Accepted {
                answers: _,
                object: _,
            } => 0,
            Outcome::Denied { answers: _, number } => number,
            Outcome::Refused { number } => number,
        }
    }

    pub fn answers(self) -> Answers
        ensures { result ≡ answers_of self }
    {
        match self {
            Outcome::Accepted { answers, object: _ } => answers,
            Outcome::Denied { answers, number: _ } => answers,
            Outcome::Refused { number: _ } => Answers::default(),
        }
    }

    pub fn object(self) -> u8
        ensures { result ≡ object_number_of self }
    {
        match self {
            Outcome::Accepted { answers: _, object } => object,
            Outcome::Denied {
                answers: _,
                number: _,
            } => NO_OBJECT,
            Outcome::Refused { number: _ } => NO_OBJECT,
        }
    }
}

// Whether a number is one by which the modules' combined answer refuses.
pub fn is_denial(number: u8) -> bool
    ensures { result ≡ denies number }
{
    (number == 12) | (number == 13)
}

impl Refusal {
    // The paper's number of a refusal.
    pub fn number(self) -> u8
        ensures { result ≡ refusal_number self }
    {
        self as u8
    }
}

// One of the ordered questions: yes goes on to the later ones, no refuses.
#[tactic(auto, unfolding(crate::specs::Outcomes::question))]
pub fn ask(yes: bool, refusal: Refusal) -> Result<(), Refusal>
    ensures { result ≡ question yes refusal }
{
    if yes { Ok(()) } else { Err(refusal) }
}

// A call's refusal number, the answers of the modules and their combination, and the object number that an accepted create gave (else 255).
#[repr(C)]
#[derive(Clone, Copy)]
pub struct CallOutcome {
    pub number: u8,
    pub mac: u8,
    pub fc: u8,
    pub sim: u8,
    pub combined: u8,
    pub object: u8,
    pub ff: u8,
}

// An outcome by its numbers, as C is given it.
impl From<Outcome> for CallOutcome {
    ghost from_gives = { λ o r. r ≡ outcome_numbers o };

    fn from(o: Outcome) -> CallOutcome {
        let Answers {
            mac,
            fc,
            sim,
            ff,
            combined,
        } = o.answers();
        CallOutcome {
            number: o.number(),
            mac: mac.code(),
            fc: fc.code(),
            sim: sim.code(),
            combined: combined.code(),
            object: o.object(),
            ff: ff.code(),
        }
    }
}
