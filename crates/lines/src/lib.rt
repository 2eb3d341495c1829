// The run program's lines, stored into a lent buffer.
#![tactic(auto)]

ghost use Rattle.std.specs.Prelude.{◌+◌, ◌*◌, ◌/◌, ◌≤◌, ◌<◌, ◌≡◌, length};
ghost use Rattle.answers.specs.Answers.{code};
ghost use Rattle.answers.specs.Outcomes.{answers_of, number_of};
ghost use Rattle.text.specs.Stored.{Put, Stored};
ghost use Rattle.io.specs.Counts.{IsPrefixLen};
ghost use Rattle.rules.specs.Lines.{setup_line, short_line};
ghost use Rattle.lines.specs.Blocks.{block_text, facility_after, lines_of};
ghost use Rattle.lines.specs.Texts.{call_text, level_part, line_text, outcome_text};

use answers::Outcome;
use in_place::FacilityStore;
use state::{Call, Process};
use text::Out;

// A level, or a hyphen where the process does not run.
fn put_level(out: &mut Out, running: u8, level: u8)
    ensures { Put out.old (level_part running level) out.new }
{
    if running == 1 {
        return out.small(level);
    }
    out.text(b"-");
}

// Index and four bytes of a call.
fn put_call(out: &mut Out, index: u64, c: Call)
    ensures { Put out.old (call_text index c) out.new }
{
    out.field(index);
    out.byte(c.request);
    out.byte(c.process);
    out.byte(c.target);
    out.byte(c.extra);
}

// And refusal number and combined answer.
fn put_outcome(out: &mut Out, index: u64, c: Call, outcome: Outcome)
    ensures stored { Put out.old (outcome_text index c outcome) out.new }
    ensures outcome_bound { number_of outcome < 256 }
    ensures outcome_bound_2 { code (answers_of outcome).combined < 256 }
{
    let answers = outcome.answers();
    let combined = answers.combined;
    let code = combined.code();
    put_call(out, index, c);
    out.byte(outcome.number());
    out.byte(code);
}

// The line of a call with its outcome, and with the caller after it. At most 49 bytes: an index of 20 digits, six numbers of three, a level
// of two or a hyphen, and seven blanks and a line feed between and behind them.
fn put_line(out: &mut Out, index: u64, c: Call, outcome: Outcome, caller: Process)
    ensures stored { Put out.old (line_text index c outcome caller.running caller.current.level) out.new }
    ensures level_len_bound { length (line_text index c outcome caller.running caller.current.level) ≤ 49 }
{
    put_outcome(out, index, c, outcome);
    put_level(out, caller.running, caller.current.level);
    out.text(b"\n");
}

// The lines of a block of calls, the first of which has this index; the facility becomes the one after it. The empty text is stored first, for
// a block without lines.
fn put_lines<S: FacilityStore>(s: &mut S, first: u64, calls: &[u8], out: &mut Out)
    ensures stored { Put out.old (lines_of first (S.facility s.old) calls.now) out.new }
    ensures becomes { S.becomes s.old s.new (facility_after first (S.facility s.old) calls.now) }
    ensures calls_len_bound { length (lines_of first (S.facility s.old) calls.now) ≤ 49 * (length calls.now / 4) }
{
    out.nothing();
    if 9223372036854775808 <= first {
        return;
    }
    for k in 0..calls.len() / history::CALL {
        let c = history::call_at(calls, history::CALL * k);
        let outcome = calls::enforce(s, c);
        let caller = s.process(c.process);
        put_line(out, first + (k as u64), c, outcome, caller);
    }
}

// `short`, where one to three bytes are left over.
fn put_short(out: &mut Out, calls: &[u8])
    ensures { Put out.old (short_line calls.now) out.new }
{
    if calls.len() % 4 == 0 {
        return out.nothing();
    }
    out.text(b"short\n");
}

// A block's lines, and `short` where bytes are left over; the facility becomes the one after it.
pub fn put_block<S: FacilityStore>(s: &mut S, first: u64, calls: &[u8], out: &mut [u8]) -> usize
    ensures stored { Stored out.old 0 (block_text first (S.facility s.old) calls.now) out.new result }
    ensures becomes { S.becomes s.old s.new (facility_after first (S.facility s.old) calls.now) }
    ensures calls_len_bound { length (block_text first (S.facility s.old) calls.now) ≤ 49 * (length calls.now / 4) + 6 }
    ensures prefix_len { IsPrefixLen result out.new }
{
    let mut lines = Out::new(out);
    put_lines(s, first, calls, &mut lines);
    put_short(&mut lines, calls);
    lines.place()
}

// `set-up`, number and index of a refused set-up.
pub fn put_setup(out: &mut [u8], number: u8, index: u16) -> usize
    ensures stored { Stored out.old 0 (setup_line number index) out.new result }
    ensures prefix_len { IsPrefixLen result out.new }
{
    let mut line = Out::new(out);
    line.text(b"set-up ");
    line.byte(number);
    line.decimal(index as u64);
    line.text(b"\n");
    line.place()
}
