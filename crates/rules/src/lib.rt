// The types of the rules: what a request acts on, its class, what a call looks at, kinds of set-up records, and what reading and enforcing give.
#![tactic(auto)]

use answers::{Outcome, SetupOutcome};
use state::{Facility, Object, Process, Switches, User};

// The requests by their numbers.
pub const ALTER_REQUEST: u8 = 0;

pub const CHANGE_OWNER_REQUEST: u8 = 1;

pub const CLONE_REQUEST: u8 = 2;

pub const CLOSE_REQUEST: u8 = 3;

pub const CREATE_REQUEST: u8 = 4;

pub const DELETE_REQUEST: u8 = 5;

pub const DELETE_DATA_REQUEST: u8 = 6;

pub const EXECUTE_REQUEST: u8 = 7;

pub const GET_PERMISSIONS_DATA_REQUEST: u8 = 8;

pub const GET_STATUS_DATA_REQUEST: u8 = 9;

pub const MODIFY_ACCESS_DATA_REQUEST: u8 = 10;

pub const MODIFY_PERMISSIONS_DATA_REQUEST: u8 = 11;

pub const READ_REQUEST: u8 = 12;

pub const READ_OPEN_REQUEST: u8 = 13;

pub const READ_WRITE_OPEN_REQUEST: u8 = 14;

pub const SEARCH_REQUEST: u8 = 15;

pub const SEND_SIGNAL_REQUEST: u8 = 16;

pub const SET_LEVEL_REQUEST: u8 = 17;

pub const TERMINATE_REQUEST: u8 = 18;

pub const WRITE_REQUEST: u8 = 19;

pub const WRITE_OPEN_REQUEST: u8 = 20;

pub const LOGIN_REQUEST: u8 = 21;

// The last one.
pub const LAST_REQUEST: u8 = LOGIN_REQUEST;

// The kinds of objects, and the last one.
pub const FILE_KIND: u8 = 0;

pub const DIRECTORY_KIND: u8 = 1;

pub const CHANNEL_KIND: u8 = 2;

pub const CONTROL_DATA_KIND: u8 = 3;

pub const LAST_KIND: u8 = CONTROL_DATA_KIND;

// The kinds of set-up records.
pub const SWITCHES_RECORD: u8 = 3;

pub const USER_RECORD: u8 = 1;

pub const OBJECT_RECORD: u8 = 2;

// The category general, the role of the security officer, and the data type security information.
pub const GENERAL_CATEGORY: u8 = 0;

pub const SECURITY_OFFICER: u8 = 1;

pub const SECURITY_INFORMATION: u8 = 1;

// What a request acts on. All requests that are not named here act on an object; a number above the last is no request.
#[derive(Clone, Copy, PartialEq, Eq)]
pub enum Action {
    Login,
    Clone,
    SendSignal,
    SetLevel,
    Terminate,
    Create,
    OnObject,
    Unknown,
}

// The class of a request by the kind of its object: R, W, B, N, or that the kind does not have the request.
#[derive(Clone, Copy, PartialEq, Eq)]
pub enum Class {
    Absent,
    Reads,
    Writes,
    Both,
    NoCondition,
}

// What questions 1 to 5 look at: the number of users, and whether the caller and the receiver run.
#[derive(Clone, Copy)]
pub struct Runs {
    pub users: u8,
    pub caller: u8,
    pub receiver: u8,
}

// What a call's target is: as a process and as an object, how the caller has it open, and the owner of it as a process (a signal's receiver).
#[derive(Clone, Copy)]
pub struct Target {
    pub receiver: Process,
    pub object: Object,
    pub opens: u8,
    pub owner: User,
}

// What the modules look up in tables: the effective flags of the target, where FF is on.
#[derive(Clone, Copy)]
pub struct Looked {
    pub flags: u8,
}

// What a call looks at: the switches, the counts, the caller and its owner, the target, and what the modules look up.
#[derive(Clone, Copy)]
pub struct View {
    pub switches: Switches,
    pub users: u8,
    pub entered: u8,
    pub caller: Process,
    pub owner: User,
    pub target: Target,
    pub looked: Looked,
}

// What a byte of a set-up record may be: 0 alone; 0 up to a number; that, or 255, which is unset; or bits of a number alone.
#[derive(Clone, Copy)]
pub enum Byte {
    Zero,
    Upto(u8),
    OrUnset(u8),
    Bits(u8),
}

// What is asked of a record's bytes together, beside what each may be.
#[derive(Clone, Copy)]
pub enum Also {
    Nothing,
    // Byte 7, a set of categories, is 0 where byte 2, a level, is unset.
    SetNeedsLevel,
}

// A kind of set-up records: its place in the order, how many there may be, and what bytes 1 to 7 may be.
#[derive(Clone, Copy)]
pub struct Kind {
    pub place: u8,
    pub most: u16,
    pub one: Byte,
    pub two: Byte,
    pub three: Byte,
    pub four: Byte,
    pub five: Byte,
    pub six: Byte,
    pub seven: Byte,
    pub also: Also,
}

// A set-up record: eight bytes.
#[derive(Clone, Copy)]
pub struct SetupRecord {
    pub kind: u8,
    pub one: u8,
    pub two: u8,
    pub three: u8,
    pub four: u8,
    pub five: u8,
    pub six: u8,
    pub seven: u8,
}

// What reading a set-up gives.
#[derive(Clone, Copy)]
pub struct Reading {
    pub outcome: SetupOutcome,
    pub facility: Facility,
}

// What enforcing a call gives.
#[derive(Clone, Copy)]
pub struct Enforced {
    pub facility: Facility,
    pub outcome: Outcome,
}
