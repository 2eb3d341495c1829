// A run in words. Words stand in the tables of `names`; texts with numbers in them are patterns (specs/Patterns.antt). What does not fit into the
// lent buffer is cut off.
#![tactic(auto)]

ghost use Rattle.std.specs.Prelude.{[], ◌∷◌, ◌≡◌};
ghost use Rattle.io.specs.Counts.{IsPrefixLen};
ghost use Rattle.rules.specs.Calls.{after};
ghost use Rattle.rules.specs.Requests.{action_of};
ghost use Rattle.text.specs.Stored.{Put, Stored};
ghost use Rattle.words.specs.Patterns.{filled, said, signs};
ghost use Rattle.words.specs.Sentences.{answers_text, before_text, count_text, create_text, flag_text, flags_text, later_text, made_text, object_text};
ghost use Rattle.words.specs.Sentences.{outcome_text, process_text, reason_in, receiver_text, sentence, sentence_text, setup_sentence, target_text};
ghost use Rattle.words.specs.Sentences.{told};
ghost use Rattle.words.specs.Short.{short_sentence};

mod short;

use answers::{Answers, Outcome, Refusal};
use in_place::FacilityStore;
use reasons::Failed;
use rules::{Action, View};
use state::{Call, Object, Process, User};
use text::Out;

// How many bytes a buffer for lines has.
pub const BUFFER: usize = 65536;

// The conditions that failed, and the object that the flag comes from which forbids the request.
#[derive(Clone, Copy)]
struct Reason {
    failed: Failed,
    source: u8,
}

// What is told of a call: what it looks at before and after it, and the counter of the caller's owner after it.
#[derive(Clone, Copy)]
struct Told {
    index: u64,
    call: Call,
    before: View,
    reason: Reason,
    outcome: Outcome,
    later: View,
    count: u32,
}

// A byte of a pattern: a sign is the number n, said in the sign's way.
fn put_said(out: &mut Out, x: u8, n: u8)
    ensures { Put out.old (said x n) out.new }
{
    match x {
        b'#' => out.small(n),
        b'$' => names::put_level(out, n),
        b'%' => names::put_kind(out, n),
        b'&' => names::put_request(out, n),
        b'\'' => names::put_answer(out, n),
        b'"' => names::put_flag_word(out, n),
        b'!' => names::put_number(out, n),
        b'*' => names::put_set(out, n),
        b'@' => names::put_role(out, n),
        b'<' => names::put_trust(out, n),
        b'>' => names::put_automatic(out, n),
        b'=' => names::put_category(out, n),
        b'?' => names::put_data_type(out, n),
        _ => out.text(&[x]),
    }
}

// How many numbers a byte of a pattern takes.
fn signs(x: u8) -> usize
    ensures { result ≡ signs x }
{
    if x == b'*' {
        return 1;
    }
    let low = (32 < x) & (x < 40);
    let high = (59 < x) & (x < 65);
    if low | high {
        return 1;
    }
    0
}

// A pattern with its signs filled by numbers. The empty text is stored first, since its end is within the buffer.
fn put_filled(out: &mut Out, pattern: &[u8], numbers: &[u8])
    ensures { Put out.old (filled pattern.now numbers.now) out.new }
{
    out.nothing();
    let mut i: usize = 0;
    for x in pattern {
        put_said(out, *x, labels::at(numbers, i));
        i += signs(*x);
    }
}

// A pattern with one number in it.
fn put_one(out: &mut Out, pattern: &[u8], n: u8)
    ensures { Put out.old (filled pattern.now (n ∷ [])) out.new }
{
    put_filled(out, pattern, &[n]);
}

// A process: its owner with role, trust and clearance, its current level and its marks, whether automatic, and its moves.
fn put_process(out: &mut Out, r: Process, u: User)
    ensures { Put out.old (process_text r u) out.new }
{
    if r.running == 1 {
        let numbers = [
            r.owner,
            u.role,
            u.trusted,
            u.clearance.level,
            u.clearance.set,
            r.current.level,
            r.current.set,
            r.readmark.level,
            r.readmark.set,
            r.writemark.level,
            r.writemark.set,
            r.automatic,
            r.moves,
        ];
        put_filled(
            out,
            b"user #, @, <, clearance #*, current #*, marks #* to #*, >, moves # of at most ",
            &numbers,
        );
        return out.decimal(u.clearance.most_moves() as u64);
    }
    out.text(b"not running");
}

// A flag where it is among v.
fn put_flag(out: &mut Out, flag: u8, v: u8)
    ensures { Put out.old (flag_text flag v) out.new }
{
    if flags::has(flag, v) {
        return put_one(out, b", \"", flag);
    }
    out.nothing();
}

// The flags among v.
fn put_flags(out: &mut Out, v: u8)
    ensures { Put out.old (flags_text v) out.new }
{
    put_flag(out, flags::READ_ONLY, v);
    put_flag(out, flags::NO_EXECUTE, v);
    put_flag(out, flags::NO_DELETE, v);
    put_flag(out, flags::SEARCH_ONLY, v);
    put_flag(out, flags::ADD_INHERITED, v);
}

// The object: its number, and where it is live its kind, level, category, data type and the flags that FF sees.
fn put_object(out: &mut Out, t: u8, o: Object, flags: u8)
    ensures { Put out.old (object_text t o flags) out.new }
{
    if o.live == 1 {
        let numbers = [
            t,
            o.kind,
            o.label.level,
            o.label.set,
            o.category,
            o.datatype,
        ];
        put_filled(
            out,
            b" object # (%, level $*, category =, data type ?",
            &numbers,
        );
        put_flags(out, flags);
        return out.text(b")");
    }
    put_one(out, b" object # (not live)", t);
}

// What a create makes, and in which directory.
fn put_create(out: &mut Out, c: Call, o: Object, flags: u8)
    ensures { Put out.old (create_text c o flags) out.new }
{
    if requests::in_directory(c.extra) {
        put_one(out, b" % in", c.extra);
        return put_object(out, c.target, o, flags);
    }
    put_one(out, b" %", c.extra);
}

// A signal's receiver, and the user who owns it.
fn put_receiver(out: &mut Out, t: u8, r: Process, u: User)
    ensures { Put out.old (receiver_text t r u) out.new }
{
    put_one(out, b" process # (", t);
    put_process(out, r, u);
    out.text(b")");
}

// What the request is about.
fn put_target(out: &mut Out, c: Call, v: View)
    ensures { Put out.old (target_text (action_of c.request) c v) out.new }
{
    let k = requests::action_of(c.request);
    match k {
        Action::Login => put_one(out, b" user #", c.extra),
        Action::Clone => put_filled(
            out,
            b" to process #, the clone of process #",
            &[c.target, c.process],
        ),
        Action::SendSignal => put_receiver(out, c.target, v.target.receiver, v.target.owner),
        Action::SetLevel => put_filled(out, b" level #*", &[c.extra, c.target]),
        Action::Terminate => out.nothing(),
        Action::Create => put_create(out, c, v.target.object, v.looked.flags),
        Action::OnObject => put_object(out, c.target, v.target.object, v.looked.flags),
        Action::Unknown => put_one(out, b" number #", c.request),
    }
}

// The call's index, the process before it with the user who owns it, and the request.
fn put_before(out: &mut Out, index: u64, c: Call, r: Process, u: User)
    ensures { Put out.old (before_text index c r u) out.new }
{
    out.decimal(index);
    put_one(out, b" process # (", c.process);
    put_process(out, r, u);
    put_one(out, b"): &", c.request);
}

// The object that a create made.
fn put_made(out: &mut Out, n: u8)
    ensures { Put out.old (made_text n) out.new }
{
    if n == answers::NO_OBJECT {
        return out.nothing();
    }
    put_one(out, b", object #", n);
}

// What the modules answer, and the number with what it says.
fn put_answers(out: &mut Out, o: Outcome)
    ensures { Put out.old (answers_text o) out.new }
{
    let n = o.number();
    let Answers {
        mac,
        fc,
        sim,
        ff,
        combined,
    } = o.answers();
    let all = [
        mac.code(),
        fc.code(),
        sim.code(),
        ff.code(),
        combined.code(),
        n,
        n,
    ];
    put_filled(out, b": MAC ', FC ', SIM ', FF ', combined ': # !", &all);
}

// The same, the conditions that failed, and the object that was made.
fn put_outcome(out: &mut Out, o: Outcome, r: Reason)
    ensures { Put out.old (outcome_text o r) out.new }
{
    put_answers(out, o);
    names::put_failed(out, r.failed, r.source);
    put_made(out, o.object());
    out.text(b"; then ");
}

// After a signal its receiver, after a cloning the clone, with the user who owns it.
fn put_later(out: &mut Out, c: Call, r: Process, u: User)
    ensures { Put out.old (later_text c r u) out.new }
{
    if requests::is_send_signal(c.request) | requests::is_clone(c.request) {
        put_one(out, b"; process # then ", c.target);
        return put_process(out, r, u);
    }
    out.nothing();
}

// After a denial, how many refusals of user u, the caller's owner, are counted.
fn put_count(out: &mut Out, o: Outcome, u: u8, n: u32)
    ensures { Put out.old (count_text o u n) out.new }
{
    if answers::is_denial(o.number()) {
        put_one(out, b"; refusals of user #: ", u);
        return out.decimal(n as u64);
    }
    out.nothing();
}

// The line of a call.
fn put_sentence(out: &mut Out, t: Told)
    ensures { Put out.old (sentence_text t) out.new }
{
    let o = t.outcome;
    put_before(out, t.index, t.call, t.before.caller, t.before.owner);
    put_target(out, t.call, t.before);
    put_outcome(out, o, t.reason);
    put_process(out, t.later.caller, t.later.owner);
    put_later(out, t.call, t.later.target.receiver, t.later.target.owner);
    put_count(out, o, t.before.caller.owner, t.count);
    out.text(b"\n");
}

// What failed of a call with number n, which looks at v, and the object that the flag comes from.
fn reason_of<S: FacilityStore>(s: &S, n: u8, v: View, c: Call) -> Reason
    ensures { result ≡ reason_in (S.facility s.now) n v c }
{
    let failed = reasons::failed_by(n, v, c);
    Reason {
        failed,
        source: flags::source(s, c.target, failed.flag),
    }
}

// Enforces a call: what is told of it. The flag's object is looked for before the call, which may delete it.
fn told_of<S: FacilityStore>(s: &mut S, index: u64, c: Call) -> Told
    ensures value { result ≡ told index (S.facility s.old) c }
    ensures becomes { S.becomes s.old s.new (after (S.facility s.old) c) }
{
    let before = calls::view_of(s, c);
    let foretold = calls::query(s, c);
    let reason = reason_of(s, foretold.number(), before, c);
    let outcome = calls::enforce(s, c);
    Told {
        index,
        call: c,
        before,
        reason,
        outcome,
        later: calls::view_of(s, c),
        count: s.refusals(before.caller.owner),
    }
}

// Enforces a call and stores its line.
pub fn tell<S: FacilityStore>(s: &mut S, index: u64, c: Call, out: &mut Out)
    ensures stored { Put out.old (sentence index (S.facility s.old) c) out.new }
    ensures becomes { S.becomes s.old s.new (after (S.facility s.old) c) }
    ensures prefix_len { IsPrefixLen out.new.place out.new.bytes.now }
{
    put_sentence(out, told_of(s, index, c));
}

// The same with the short line.
pub fn tell_short<S: FacilityStore>(s: &mut S, index: u64, c: Call, out: &mut Out)
    ensures stored { Put out.old (short_sentence index (S.facility s.old) c) out.new }
    ensures becomes { S.becomes s.old s.new (after (S.facility s.old) c) }
{
    short::put_short(out, told_of(s, index, c));
}

// A refused set-up.
fn put_refused(out: &mut Out, number: u8, index: u64)
    ensures { Put out.old (setup_sentence number index) out.new }
{
    // No record is at fault where the length is not allowed.
    if number == Refusal::Length.number() {
        return put_filled(out, b"set-up refused: # !\n", &[number, number]);
    }
    out.text(b"set-up refused at record ");
    out.decimal(index);
    put_filled(out, b": # !\n", &[number, number]);
}

// The same at the start of a buffer. Answers where the line ends.
pub fn put_setup(out: &mut [u8; BUFFER], number: u8, index: u64) -> usize
    ensures stored { Stored out.old 0 (setup_sentence number index) out.new result }
    ensures prefix_len { IsPrefixLen result out.new }
{
    let mut line = Out::new(out);
    put_refused(&mut line, number, index);
    line.place()
}
