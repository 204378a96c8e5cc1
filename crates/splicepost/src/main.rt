// Builds the table of a coded grammar. The grammar is read from standard input; the table room has 65,536 bytes.
//
// It prints `built`, the counts of states and records, and behind that the records, one a line; or `refused` with document 01's number and
// place. Without a word it builds in lane mode. The word `canonical` asks for canonical mode; the word `bytes` for the bytes of the
// table instead of the text, and a refusal is then said on standard error. Standard input that cannot be read and standard output that
// does not take all are said on standard error too: where that is empty, what was printed is whole.
#![tactic(auto)]

ghost use Rattle.std.specs.Prelude.{◌*◌, ◌≤◌, length};
ghost use Rattle.text.specs.Tables.{RecordsWithin};

use answers::Said;
use rules::{BuildRefusal, TableSize};
use std::env::FillError;
use std::io;
use std::rt::Env;

// What is written of a table: its text, or its bytes.
#[derive(Clone, Copy)]
enum Form {
    Text,
    Bytes,
}

// What the words ask for.
#[derive(Clone, Copy)]
struct Asked {
    mode: u64,
    form: Form,
}

impl Asked {
    // What is asked for, with one more word; none if it is no word of the program.
    fn with_word(self, word: &[u8]) -> Option<Asked> {
        match word {
            b"canonical" => Some(Asked { mode: 1, ..self }),
            b"bytes" => Some(Asked {
                form: Form::Bytes,
                ..self
            }),
            _ => None,
        }
    }
}

// What the words of the call ask for; none if one of them is no word of the program.
fn read_words(rt: &impl Env) -> Option<Asked> {
    let mut asked = Asked {
        mode: 0,
        form: Form::Text,
    };
    for i in 1..usize::MAX {
        let mut word = [0u8; 16];
        let size = match rt.arg(i, &mut word) {
            Ok(size) => size,
            Err(FillError::TooLong) => 0,
            Err(FillError::NotPresent) => break,
        };
        asked = asked.with_word(&word[..size])?;
    }
    Some(asked)
}

// Writes the bytes of the first `count` records of a table.
fn write_records(to: &impl Print, table: &[u8], count: usize) -> io::Result<()>
    requires { 8 * count ≤ length table.now }
{
    to.write_all(&table[..8 * count])
}

// Writes the bytes of the table, or on standard error why there is none.
fn write_bytes(
    to: &impl Print,
    err: &impl Print,
    answer: Result<TableSize, BuildRefusal>,
    table: &[u8],
) -> io::Result<()>
    requires { RecordsWithin answer table.now }
{
    match answer {
        Ok(size) => write_records(to, table, size.records),
        Err(why) => text::write_said(err, Said::from(why)),
    }
}

// Builds the table and writes it as it is asked for; an error if not all of it was written.
fn build_asked(to: &impl Print, err: &impl Print, asked: Asked, grammar: &[u8]) -> io::Result<()> {
    let mut table = [0u8; 65536];
    let mut work = [0u64; 8192];
    let answer = builder::build(asked.mode, grammar, &mut table, &mut work);
    match asked.form {
        Form::Text => text::write_built(to, answer, &table),
        Form::Bytes => write_bytes(to, err, answer, &table),
    }
}

// Of more than 65,536 bytes these are read: they are too long for a grammar, and refused as the whole would be.
fn main(rt: HostRuntime) -> io::Result<()> {
    let err = rt.stderr();
    let Some(asked) = read_words(&rt) else {
        return err.write_all(
            b"usage: splicepost [canonical] [bytes] < GRAMMAR\nwhat a refusal's number means: docs/REFUSALS.md\n",
        );
    };
    let mut input = [0u8; 65536];
    match input::files::read(&mut rt.stdin(), &mut input) {
        Ok(file) => {
            if let Err(why) = build_asked(&rt, &err, asked, &input[..file.size]) {
                text::fail(&err, b"standard output", why);
            }
        }
        Err(why) => text::fail(&err, b"standard input", why),
    }
    Ok(())
}
