// The words for numbers: requests, kinds, answers, flags, refusal numbers, levels, sets of categories, roles, trust, automatic, categories and data
// types, and for the conditions that failed of a call. What does not fit into the lent buffer is cut off.
#![tactic(auto)]

ghost use Rattle.std.specs.Prelude.{map};
ghost use Rattle.names.specs.Reasons.{failed_text, flag_reason, mac_reasons, role_reasons, text_if};
ghost use Rattle.names.specs.Words.{answer_word, automatic_word, category_word, data_type_word, flag_word, kind_word, label_word};
ghost use Rattle.names.specs.Words.{letters_of, level_word, number_word, request_word, role_word, set_word, trust_word, word_in};
ghost use Rattle.text.specs.Stored.{Put};

use labels::Label;
use reasons::Failed;
use text::Out;

// The word of a number in a table; `none` is for numbers past the last.
fn put_word(out: &mut Out, words: &[&str], none: &str, n: u8)
    ensures { Put out.old (word_in none.now (map (λ w. w.now) words.now) n) out.new }
{
    let word = words.get(n as usize).copied().unwrap_or(none);
    out.text(word.as_bytes());
}

// A text where something is so.
#[tactic(auto, unfolding(crate::specs::Reasons::text_if))]
fn put_if(out: &mut Out, test: bool, text: &[u8])
    ensures { Put out.old (text_if test text.now) out.new }
{
    if test {
        out.text(text);
    } else {
        out.nothing();
    }
}

const KINDS: [&str; 4] = ["file", "directory", "channel", "control data"];

// The word for a kind of object.
#[tactic(auto, unfolding(crate::specs::Words::kind_word))]
pub fn put_kind(out: &mut Out, kind: u8)
    ensures { Put out.old (kind_word kind) out.new }
{
    put_word(out, &KINDS, "no kind", kind);
}

const ROLES: [&str; 3] = ["general", "security officer", "system administrator"];

// The word for a user's role.
#[tactic(auto, unfolding(crate::specs::Words::role_word))]
pub fn put_role(out: &mut Out, role: u8)
    ensures { Put out.old (role_word role) out.new }
{
    put_word(out, &ROLES, "no role", role);
}

const TRUST: [&str; 2] = ["untrusted", "trusted"];

// Whether a user is trusted.
#[tactic(auto, unfolding(crate::specs::Words::trust_word))]
pub fn put_trust(out: &mut Out, trusted: u8)
    ensures { Put out.old (trust_word trusted) out.new }
{
    put_word(out, &TRUST, "untrusted", trusted);
}

const AUTOMATIC: [&str; 2] = ["not automatic", "automatic"];

// Whether a process is automatic.
#[tactic(auto, unfolding(crate::specs::Words::automatic_word))]
pub fn put_automatic(out: &mut Out, automatic: u8)
    ensures { Put out.old (automatic_word automatic) out.new }
{
    put_word(out, &AUTOMATIC, "not automatic", automatic);
}

const CATEGORIES: [&str; 3] = ["general", "security", "system"];

// The word for an object's category, which FC looks at.
#[tactic(auto, unfolding(crate::specs::Words::category_word))]
pub fn put_category(out: &mut Out, category: u8)
    ensures { Put out.old (category_word category) out.new }
{
    if category == labels::UNSET {
        return out.text(b"unset");
    }
    put_word(out, &CATEGORIES, "no category", category);
}

const DATA_TYPES: [&str; 2] = ["none", "security information"];

// The word for an object's data type.
#[tactic(auto, unfolding(crate::specs::Words::data_type_word))]
pub fn put_data_type(out: &mut Out, datatype: u8)
    ensures { Put out.old (data_type_word datatype) out.new }
{
    put_word(out, &DATA_TYPES, "no data type", datatype);
}

const ANSWERS: [&str; 4] = ["not cared", "granted", "not granted", "undefined"];

// The word for an answer.
#[tactic(auto, unfolding(crate::specs::Words::answer_word))]
pub fn put_answer(out: &mut Out, answer: u8)
    ensures { Put out.old (answer_word answer) out.new }
{
    put_word(out, &ANSWERS, "no answer", answer);
}

const REQUESTS: [&str; 22] = [
    "alter",
    "change-owner",
    "clone",
    "close",
    "create",
    "delete",
    "delete-data",
    "execute",
    "get-permissions-data",
    "get-status-data",
    "modify-access-data",
    "modify-permissions-data",
    "read",
    "read-open",
    "read&write-open",
    "search",
    "send-signal",
    "set-level",
    "terminate",
    "write",
    "write-open",
    "login",
];

// The word for a request.
#[tactic(auto, unfolding(crate::specs::Words::request_word))]
pub fn put_request(out: &mut Out, request: u8)
    ensures { Put out.old (request_word request) out.new }
{
    put_word(out, &REQUESTS, "no request", request);
}

// The word for a flag.
#[tactic(auto, unfolding(crate::specs::Words::flag_word))]
pub fn put_flag_word(out: &mut Out, flag: u8)
    ensures { Put out.old (flag_word flag) out.new }
{
    let word = match flag {
        flags::READ_ONLY => "read-only",
        flags::NO_EXECUTE => "no-execute",
        flags::NO_DELETE => "no-delete",
        flags::SEARCH_ONLY => "search-only",
        flags::ADD_INHERITED => "add-inherited",
        _ => "no flag",
    };
    out.text(word.as_bytes());
}

const NUMBERS: [&str; 20] = [
    "accepted",
    "no such request",
    "no such process number",
    "process does not run",
    "process number is not free",
    "no such user",
    "object is not live",
    "object's kind lacks the request",
    "no such kind",
    "object is not open in that mode",
    "128 objects are entered",
    "no such level",
    "not granted",
    "undefined",
    "length is not allowed",
    "kind does not fit the place",
    "too many users or objects",
    "a byte is not allowed",
    "buffer is too short",
    "parent is no earlier directory",
];

// What a number says.
#[tactic(auto, unfolding(crate::specs::Words::number_word))]
pub fn put_number(out: &mut Out, number: u8)
    ensures { Put out.old (number_word number) out.new }
{
    put_word(out, &NUMBERS, "no number", number);
}

// An object's level, or that it is unset.
#[tactic(auto, unfolding(crate::specs::Words::level_word))]
pub fn put_level(out: &mut Out, level: u8)
    ensures { Put out.old (level_word level) out.new }
{
    if level == labels::UNSET {
        return out.text(b"unset");
    }
    out.small(level);
}

// The letters of a set of categories.
fn put_letters(out: &mut Out, s: u8)
    ensures { Put out.old (letters_of s) out.new }
{
    out.nothing();
    for k in 0..8 {
        put_if(out, flags::has(1 << k, s), &[b'a' + k]);
    }
}

// The same with a blank before them, or that all are in it.
pub fn put_set(out: &mut Out, s: u8)
    ensures { Put out.old (set_word s) out.new }
{
    if s == 0 {
        return out.nothing();
    }
    if s == labels::ALL_CATEGORIES {
        return out.text(b" all");
    }
    out.text(b" ");
    put_letters(out, s);
}

// A label: its level and its set.
pub fn put_label(out: &mut Out, l: Label)
    ensures { Put out.old (label_word l) out.new }
{
    put_level(out, l.level);
    put_set(out, l.set);
}

// The conditions of MAC that failed.
fn put_mac_reasons(out: &mut Out, w: Failed)
    ensures { Put out.old (mac_reasons w) out.new }
{
    put_if(out, w.unset, b" (level unset)");
    put_if(out, w.fixed, b" (automatic off)");
    put_if(out, w.clearance, b" (label not under the clearance)");
    put_if(out, w.writemark, b" (label not under the write mark)");
    put_if(out, w.readmark, b" (label not over the read mark)");
    put_if(out, w.receiver, b" (current labels differ)");
}

// Those of FC and SIM.
fn put_role_reasons(out: &mut Out, w: Failed)
    ensures { Put out.old (role_reasons w) out.new }
{
    put_if(out, w.nocategory, b" (category unset)");
    put_if(out, w.category, b" (category not of the role)");
    put_if(
        out,
        w.datatype,
        b" (security information, not security officer)",
    );
}

// The flag by which FF does not grant, and the object whose own flag it is.
fn put_flag_reason(out: &mut Out, flag: u8, source: u8)
    ensures { Put out.old (flag_reason flag source) out.new }
{
    if flag == 0 {
        return out.nothing();
    }
    out.text(b" (");
    put_flag_word(out, flag);
    out.text(b" of object ");
    out.small(source);
    out.text(b")");
}

// All conditions that failed; the source is the object that the flag comes from.
pub fn put_failed(out: &mut Out, w: Failed, source: u8)
    ensures { Put out.old (failed_text w source) out.new }
{
    put_mac_reasons(out, w);
    put_role_reasons(out, w);
    put_flag_reason(out, w.flag, source);
}
