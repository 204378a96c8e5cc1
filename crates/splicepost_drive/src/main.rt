// Drives tokens over a table. Three files are named: a grammar, a table, and tokens, a byte each. Behind them numbers may stand: the most
// steps of the run, and how many numbers its stack and its list may have. Without them the run has the whole rooms, and no limit of steps.
//
// It prints `accepted`, the steps and the list length, and behind that the productions in the order of the list, one a line; or `refused`,
// document 01's number and place, and where the run had begun the steps and the list length too. What is no answer of the driver is
// said on standard error: how to call the program, a file that cannot be read, a file longer than its room, a table of no bytes, and
// standard output that does not take all.
#![tactic(auto)]

ghost use Rattle.std.specs.Prelude.{◌≤◌, IfOk, IfSome};
ghost use Rattle.input.specs.Counts.{IsPrefixLen};
ghost use Rattle.splicepost_drive.specs.Rooms.{WithinRooms};

use answers::Said;
use input::files::File;
use input::rooms::{TABLE_ROOM, filled};
use std::env::FillError;
use std::rt::{Env, Files};
use std::{fs, io};

// Every longer grammar is refused by its length, whatever it holds.
const GRAMMAR_ROOM: usize = 4104;

// The rooms for tokens, stack and list take 6,200,000 bytes of the 8 MiB that a program's stack has by default. The stack holds all tokens.
const TOKENS_ROOM: usize = 1000000;

const STACK_ROOM: usize = 1100000;

const LIST_ROOM: usize = 1500000;

// No longer name of a file is opened.
const NAME_ROOM: usize = 4096;

// The system's number of the error that a file's name is too long.
const NAME_TOO_LONG: i32 = 36;

// Opens the file with this name. The name is text: the library opens no other.
fn open_read<R: Files>(rt: &R, name: &[u8]) -> io::Result<R::File> {
    match std::str::from_utf8(name) {
        Ok(path) => fs::open(rt, path),
        Err(_) => Err(io::Error::from(io::ErrorKind::InvalidFilename)),
    }
}

// Reads the file with this name into the room.
fn read_named<R: Files>(rt: &R, name: &[u8], room: &mut [u8]) -> io::Result<File>
    ensures { IfOk result (λ file. IsPrefixLen file.size room.new) }
{
    let mut from = open_read(rt, name)?;
    input::files::read(&mut from, room)
}

// Writes a line about a file that is longer than its room.
fn write_too_long(err: &impl Print, name: &[u8], room: usize) -> io::Result<()> {
    err.write_all(name)?;
    err.println(format_args!(": longer than {room} bytes"))
}

// Reads the file that argument i names into the room, which may be shorter than the file if `part` says so, and counts its bytes. None
// is read where standard error says why. A type in place of `part` would say no more: the grammar's room alone may be shorter.
fn read_argument(
    rt: &(impl Env + Files),
    err: &impl Print,
    i: usize,
    part: bool,
    room: &mut [u8],
) -> Option<usize>
    ensures { IfSome result (λ size. IsPrefixLen size room.new) }
{
    let mut name = [0u8; NAME_ROOM];
    let Ok(length) = rt.arg(i, &mut name) else {
        let why = io::Error::from_raw_os_error(NAME_TOO_LONG);
        text::fail(err, b"a file's name", why);
        return None;
    };
    match read_named(rt, &name[..length], room) {
        Ok(file) => {
            if file.longer && !part {
                let _ = write_too_long(err, &name[..length], room.len());
                return None;
            }
            Some(file.size)
        }
        Err(why) => {
            text::fail(err, &name[..length], why);
            None
        }
    }
}

// Writes a line about the table file, which argument 2 names, if it has no bytes: it is driven, as every table is, but none is built so.
fn write_if_empty(rt: &impl Env, err: &impl Print, size: usize) {
    if 0 < size {
        return;
    }
    let mut name = [0u8; NAME_ROOM];
    if let Ok(length) = rt.arg(2, &mut name) {
        let _ = err.write_all(&name[..length]);
    }
    let _ = err.write_all(b": an empty file, as no table is\n");
}

// Writes the first productions of the list, as many as are listed, each on a line; an error if not all were written.
fn write_productions(to: &impl Print, list: &[u16], listed: usize) -> io::Result<()> {
    for production in list.iter().take(listed) {
        to.println(production)?;
    }
    Ok(())
}

// Writes what the driver answers, and behind an acceptance the list that it left; an error if not all was written.
fn write_answer(to: &impl Print, said: Said, list: &[u16]) -> io::Result<()> {
    text::write_said(to, said)?;
    match said {
        Said::Accepted(_, listed) => write_productions(to, list, listed),
        _ => Ok(()),
    }
}

// What a run may use: steps, and numbers of the stack and of the list.
#[derive(Drop)]
struct Lent {
    limit: u64,
    stack: usize,
    list: usize,
}

// Drives the tokens in rooms that are lent.
fn drive_in(
    to: &impl Print,
    err: &impl Print,
    grammar: &[u8],
    table: &[u8],
    tokens: &[u8],
    limit: u64,
    stack: &mut [u16],
    list: &mut [u16],
) {
    let answer = driver::drive(grammar, table, tokens, limit, stack, list);
    if let Err(why) = write_answer(to, Said::from(answer), list) {
        text::fail(err, b"standard output", why);
    }
}

// Drives the tokens with as much of the rooms as is lent.
fn drive_tokens(
    to: &impl Print,
    err: &impl Print,
    grammar: &[u8],
    table: &[u8],
    tokens: &[u8],
    lent: Lent,
)
    requires { WithinRooms lent }
{
    let mut stack: [u16; STACK_ROOM] = filled(0);
    let mut list: [u16; LIST_ROOM] = filled(0);
    drive_in(
        to,
        err,
        grammar,
        table,
        tokens,
        lent.limit,
        &mut stack[..lent.stack],
        &mut list[..lent.list],
    );
}

// Reads the tokens, and drives them over the table.
fn with_table(
    rt: &(impl Env + Files + Print),
    err: &impl Print,
    grammar: &[u8],
    table: &[u8],
    lent: Lent,
)
    requires { WithinRooms lent }
{
    let mut room: [u8; TOKENS_ROOM] = filled(0);
    if let Some(size) = read_argument(rt, err, 3, false, &mut room) {
        drive_tokens(rt, err, grammar, table, &room[..size], lent);
    }
}

// Reads the table, and goes on.
fn with_grammar(rt: &(impl Env + Files + Print), err: &impl Print, grammar: &[u8], lent: Lent)
    requires { WithinRooms lent }
{
    let mut room: [u8; TABLE_ROOM] = filled(0);
    if let Some(size) = read_argument(rt, err, 2, false, &mut room) {
        write_if_empty(rt, err, size);
        with_table(rt, err, grammar, &room[..size], lent);
    }
}

// Reads the grammar, and goes on.
fn with_lent(rt: &(impl Env + Files + Print), err: &impl Print, lent: Lent)
    requires { WithinRooms lent }
{
    let mut room = [0u8; GRAMMAR_ROOM];
    if let Some(size) = read_argument(rt, err, 1, true, &mut room) {
        with_grammar(rt, err, &room[..size], lent);
    }
}

// Says that a word, which the usage names so, is no number that can be given.
fn write_not_given(err: &impl Print, name: &[u8], most: u64) -> io::Result<()> {
    err.write_all(name)?;
    err.println(format_args!(": no number from 0 to {most}"))
}

// The number that argument i says, at most the most that can be given; the most if there is no such argument. What is no such number is
// said on standard error.
fn read_number(rt: &impl Env, err: &impl Print, i: usize, name: &[u8], most: u64) -> Option<u64>
    ensures { IfSome result (λ number. number ≤ most) }
{
    let mut word = [0u8; 32];
    let size = match rt.arg(i, &mut word) {
        Ok(size) => size,
        Err(FillError::TooLong) => 0,
        Err(FillError::NotPresent) => return Some(most),
    };
    let number = input::numbers::said(&word[..size]).filter(|number| *number <= most);
    if number.is_none() {
        let _ = write_not_given(err, name, most);
    }
    number
}

// Writes how to call the program.
fn write_usage(err: &impl Print) -> io::Result<()> {
    err.write_all(
        b"usage: splicepost_drive GRAMMAR TABLE TOKENS [LIMIT [STACK [LIST]]]\nLIMIT: the most steps; STACK, LIST: how many numbers these rooms have, at most 1100000 and 1500000\nwhat a refusal's number means: docs/REFUSALS.md\n",
    )
}

// Whether the call has argument i, be it empty or long.
fn has_argument(rt: &impl Env, i: usize) -> bool {
    let mut word = [0u8; 1];
    !matches!(rt.arg(i, &mut word), Err(FillError::NotPresent))
}

fn main(rt: HostRuntime) -> io::Result<()> {
    let err = rt.stderr();
    if !has_argument(&rt, 3) || has_argument(&rt, 7) {
        return write_usage(&err);
    }
    let limit = read_number(&rt, &err, 4, b"LIMIT", u64::MAX);
    let stack = read_number(&rt, &err, 5, b"STACK", STACK_ROOM as u64);
    let list = read_number(&rt, &err, 6, b"LIST", LIST_ROOM as u64);
    if let (Some(limit), Some(stack), Some(list)) = (limit, stack, list) {
        with_lent(
            &rt,
            &err,
            Lent {
                limit,
                stack: stack as usize,
                list: list as usize,
            },
        );
    }
    Ok(())
}
