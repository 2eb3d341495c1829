// What a request acts on, its class by the kind of its object, and what it does to the opens.
#![tactic(auto)]

ghost use Rattle.std.specs.Prelude.{◌<◌, ◌≤◌, true, ◌≡◌};
ghost use Rattle.requests.specs.ClassCodes.{class_named, word_right};
ghost use Rattle.requests.specs.Request.{request_of};
ghost use Rattle.rules.specs.Requests.{class_code, is_on_object, alters, class_of, in_directory, is_absent};
ghost use Rattle.rules.specs.Requests.{is_create, is_no_condition, needs_object, open_change};
ghost use Rattle.rules.specs.Requests.{action_of, is_clone, is_login, is_send_signal, is_set_level, last_kind, last_request};

use opens::OpenChange;
use rules::{Action, Class};

// What is known of a call's request: what it acts on, whether it needs an object, and its class by the kind of its object.
#[derive(Clone, Copy)]
pub struct Request {
    pub action: Action,
    pub object: bool,
    pub class: Class,
}

// The last request number.
pub const LAST: u8 = rules::LAST_REQUEST;

// The paper's letters, as codes; none where a kind does not have the request.
const NONE: u64 = 0;

const R: u64 = 1;

const W: u64 = 2;

const B: u64 = 3;

const N: u64 = 4;

// The places of the kinds of objects in a row of the table, an octal digit each.
const FILE: u64 = 1;

const DIRECTORY: u64 = 8;

const CHANNEL: u64 = 64;

const CONTROL_DATA: u64 = 512;

// The classes: a row for each request.
const CLASSES: [u64; 22] = [
    W * CHANNEL, // 0 alter
    W * CONTROL_DATA, // 1 change-owner
    NONE, // 2 clone
    N * FILE + N * CHANNEL, // 3 close
    W * DIRECTORY, // 4 create
    W * FILE + W * DIRECTORY + W * CHANNEL + W * CONTROL_DATA, // 5 delete
    W * FILE, // 6 delete-data
    R * FILE, // 7 execute
    R * CONTROL_DATA, // 8 get-permissions-data
    R * CONTROL_DATA, // 9 get-status-data
    W * CONTROL_DATA, // 10 modify-access-data
    W * CONTROL_DATA, // 11 modify-permissions-data
    N * FILE + R * DIRECTORY + N * CHANNEL, // 12 read
    R * FILE, // 13 read-open
    B * FILE + B * CHANNEL, // 14 read&write-open
    R * DIRECTORY, // 15 search
    NONE, // 16 send-signal
    NONE, // 17 set-level
    NONE, // 18 terminate
    N * FILE + W * DIRECTORY + N * CHANNEL, // 19 write
    W * FILE, // 20 write-open
    NONE, // 21 login
];

// The table in words of four rows. A word that an arm names costs nothing to read, where an array is built anew at each use.
const ROW: u64 = 4096;

const WORDS: [u64; 6] = [
    CLASSES[0] + ROW * (CLASSES[1] + ROW * (CLASSES[2] + ROW * CLASSES[3])),
    CLASSES[4] + ROW * (CLASSES[5] + ROW * (CLASSES[6] + ROW * CLASSES[7])),
    CLASSES[8] + ROW * (CLASSES[9] + ROW * (CLASSES[10] + ROW * CLASSES[11])),
    CLASSES[12] + ROW * (CLASSES[13] + ROW * (CLASSES[14] + ROW * CLASSES[15])),
    CLASSES[16] + ROW * (CLASSES[17] + ROW * (CLASSES[18] + ROW * CLASSES[19])),
    CLASSES[20] + ROW * CLASSES[21],
];

// A word of the table: each of its sixteen digits is the code of its request and kind.
fn word_of(i: u8) -> u64
    requires { i < 6 }
    ensures { word_right i result ≡ true }
{
    match i {
        0 => WORDS[0],
        1 => WORDS[1],
        2 => WORDS[2],
        3 => WORDS[3],
        4 => WORDS[4],
        _ => WORDS[5],
    }
}

fn code_at(request: u8, kind: u8) -> u64
    requires { (request ≤ last_request) × (kind ≤ last_kind) }
    ensures { result ≡ class_code (class_of request kind) }
{
    let i = request * 4 + kind;
    let word = word_of(i / 16);
    let place = ((i % 16) as u64) * 3;
    (word >> place) % 8
}

// By halves: a test of each code in turn would be compiled to a jump that the processor cannot foresee.
fn class_named(code: u64) -> Class
    ensures { result ≡ class_named code }
{
    if code <= R {
        if code == R {
            return Class::Reads;
        }
        return Class::Absent;
    }
    if code <= B {
        if code == W {
            return Class::Writes;
        }
        return Class::Both;
    }
    if code == N {
        return Class::NoCondition;
    }
    Class::Absent
}

// The class of a request by the kind of its object.
pub fn class_of(request: u8, kind: u8) -> Class
    ensures { result ≡ class_of request kind }
{
    if LAST < request {
        return Class::Absent;
    }
    if rules::LAST_KIND < kind {
        return Class::Absent;
    }
    class_named(code_at(request, kind))
}

// The number of a class, by which C is told it.
pub fn class_code(k: Class) -> u64
    ensures { result ≡ class_code k }
{
    k as u64
}

pub fn is_absent(k: Class) -> bool
    ensures { result ≡ is_absent k }
{
    k == Class::Absent
}

pub fn is_no_condition(k: Class) -> bool
    ensures { result ≡ is_no_condition k }
{
    k == Class::NoCondition
}

// Class W or B.
pub fn alters(k: Class) -> bool
    ensures { result ≡ alters k }
{
    matches!(k, Class::Writes | Class::Both)
}

// What a request acts on.
pub fn action_of(request: u8) -> Action
    ensures { result ≡ action_of request }
{
    if LAST < request {
        return Action::Unknown;
    }
    match request {
        rules::CLONE_REQUEST => Action::Clone,
        rules::CREATE_REQUEST => Action::Create,
        rules::SEND_SIGNAL_REQUEST => Action::SendSignal,
        rules::SET_LEVEL_REQUEST => Action::SetLevel,
        rules::TERMINATE_REQUEST => Action::Terminate,
        rules::LOGIN_REQUEST => Action::Login,
        _ => Action::OnObject,
    }
}

pub fn is_create(k: Action) -> bool
    ensures { result ≡ is_create k }
{
    k == Action::Create
}

fn is_on_object(k: Action) -> bool
    ensures { result ≡ is_on_object k }
{
    k == Action::OnObject
}

// Whether an object of this kind is created in a directory.
pub fn in_directory(kind: u8) -> bool
    ensures { result ≡ in_directory kind }
{
    !((kind == rules::CHANNEL_KIND) | (kind == rules::CONTROL_DATA_KIND))
}

// Whether a request needs an object as its target; `extra` is the kind to be created.
pub fn needs_object(k: Action, extra: u8) -> bool
    ensures { result ≡ needs_object k extra }
{
    if is_create(k) {
        in_directory(extra)
    } else {
        is_on_object(k)
    }
}

// What is known of a request by the kind of its object, and by `extra`; found once for a call.
pub fn request_of(request: u8, kind: u8, extra: u8) -> Request
    ensures { result ≡ request_of request kind extra }
{
    let action = action_of(request);
    let object = needs_object(action, extra);
    let class = class_of(request, kind);
    Request {
        action,
        object,
        class,
    }
}

// What a request on an object does to the opens.
pub fn open_change(request: u8) -> OpenChange
    ensures { result ≡ open_change request }
{
    match request {
        rules::READ_OPEN_REQUEST => OpenChange::Add(1),
        rules::READ_WRITE_OPEN_REQUEST => OpenChange::Add(3),
        rules::WRITE_OPEN_REQUEST => OpenChange::Add(2),
        rules::CLOSE_REQUEST => OpenChange::Close,
        rules::DELETE_REQUEST => OpenChange::CloseAll,
        _ => OpenChange::Keep,
    }
}

pub fn is_login(request: u8) -> bool
    ensures { result ≡ is_login (action_of request) }
{
    request == rules::LOGIN_REQUEST
}

pub fn is_clone(request: u8) -> bool
    ensures { result ≡ is_clone (action_of request) }
{
    request == rules::CLONE_REQUEST
}

pub fn is_send_signal(request: u8) -> bool
    ensures { result ≡ is_send_signal (action_of request) }
{
    request == rules::SEND_SIGNAL_REQUEST
}

pub fn is_set_level(k: Action) -> bool
    ensures { result ≡ is_set_level k }
{
    k == Action::SetLevel
}
