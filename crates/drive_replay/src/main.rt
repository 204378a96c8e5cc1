// Replays cases of the driver from standard input and holds the driver to each: number, place, steps and list length of the answer, and
// every cell of stack and list after the call. It writes how many cases have which answer, the first cases that differ, and how many do.
// tools/driver_cases.py makes the cases and the lines that are expected, and says how a list of cases lies in bytes.
#![tactic(auto)]

ghost use Rattle.std.specs.Prelude.{◌≡◌, ◌<◌, ◌≤◌, length, IfOk};
ghost use Rattle.drive_replay.specs.Cases.{four_bytes, max_room, Within, IsCase};

use answers::Said;
use input::rooms::filled;
use std::io;

// The most cells that a case lends for its stack or list.
const ROOM: usize = 1024;

// Cell i is this and i before a call: no state and no production is as high.
const UNTOUCHED: u16 = 40000;

// The bytes of a case before its cells: fifteen numbers of four bytes.
const HEAD: usize = 60;

// Where the count of all cases stands, and that of the cases that differ; before them those of each answer, by document 01's number, 0
// being accepted.
const CASES: usize = 22;

const DIFFER: usize = 23;

// The number of four bytes, the first of which is byte i.
fn number(cases: &[u8], i: usize) -> u64
    requires { Within i 4 cases.now }
    ensures { result < four_bytes }
{
    let bytes = [cases[i], cases[i + 1], cases[i + 2], cases[i + 3]];
    u64::from(u32::from_le_bytes(bytes))
}

// The shared bytes that two numbers from byte i on name; none where there are not as many.
fn shared_part(cases: &[u8], i: usize) -> &[u8]
    requires { Within i 8 cases.now }
    ensures { length result.now ≤ length cases.now }
{
    let from = 4 + number(cases, i) as usize;
    let to = from + number(cases, i + 4) as usize;
    cases.get(from..to).unwrap_or(&[])
}

// How many cells a room has by the number from byte i on.
fn room(cases: &[u8], i: usize) -> usize
    requires { Within i 4 cases.now }
    ensures { result ≤ max_room }
{
    (number(cases, i) as usize).min(ROOM)
}

// What cell i is before a call.
fn untouched(i: usize) -> u16 {
    UNTOUCHED + (i % ROOM) as u16
}

// Makes every cell what it is before a call.
fn lay(cells: &mut [u16]) {
    for (i, cell) in cells.iter_mut().enumerate() {
        *cell = untouched(i);
    }
}

// What cell i is to be after a call that put these numbers in the first cells.
fn expected(put: &[u8], i: usize) -> u16 {
    match put.get(i) {
        Some(&number) => u16::from(number),
        None => untouched(i),
    }
}

// Every cell is what it is to be.
fn cells_agree(cells: &[u16], put: &[u8]) -> bool {
    put.len() <= cells.len()
        && cells
            .iter()
            .enumerate()
            .all(|(i, cell)| *cell == expected(put, i))
}

// The four numbers from byte i on are these.
fn are(cases: &[u8], i: usize, first: u64, second: u64, third: u64, fourth: u64) -> bool
    requires { Within i 16 cases.now }
{
    number(cases, i) == first
        && number(cases, i + 4) == second
        && number(cases, i + 8) == third
        && number(cases, i + 12) == fourth
}

// The answer is the one that stands from byte i on: number, place, steps, list length.
fn answer_agrees(cases: &[u8], i: usize, said: Said) -> bool
    requires { Within i 16 cases.now }
{
    match said {
        Said::Coded | Said::Built(_, _) => false,
        Said::Refused(number, place) => are(cases, i, number, place as u64, 0, 0),
        Said::Accepted(steps, listed) => are(cases, i, 0, 0, steps as u64, listed as u64),
        Said::Stopped(number, place, steps, listed) => {
            are(cases, i, number, place as u64, steps as u64, listed as u64)
        }
    }
}

// Drives the case that begins at a byte in the rooms that are lent, and tells whether the answer is the expected one.
fn drive_case(cases: &[u8], at: usize, stack: &mut [u16], list: &mut [u16]) -> bool
    requires { IsCase at cases.now }
{
    let grammar = shared_part(cases, at);
    let table = shared_part(cases, at + 8);
    let tokens = shared_part(cases, at + 16);
    let limit = number(cases, at + 24) + 4294967296 * number(cases, at + 28);
    let answer = driver::drive(grammar, table, tokens, limit, stack, list);
    answer_agrees(cases, at + 40, Said::from(answer))
}

// Replays the case that begins at a byte in the rooms that are lent, and tells whether all is as expected: the answer, and the cells that
// are put.
fn replay(
    cases: &[u8],
    at: usize,
    states: &[u8],
    productions: &[u8],
    stack: &mut [u16],
    list: &mut [u16],
) -> bool
    requires { IsCase at cases.now }
{
    lay(stack);
    lay(list);
    drive_case(cases, at, stack, list)
        && cells_agree(stack, states)
        && cells_agree(list, productions)
}

// The same in rooms of the size that the case says.
fn replay_in_rooms(cases: &[u8], at: usize, states: &[u8], productions: &[u8]) -> bool
    requires { IsCase at cases.now }
{
    let stack_room = room(cases, at + 32);
    let list_room = room(cases, at + 36);
    let mut stack: [u16; ROOM] = filled(0);
    let mut list: [u16; ROOM] = filled(0);
    replay(
        cases,
        at,
        states,
        productions,
        &mut stack[..stack_room],
        &mut list[..list_room],
    )
}

// Counts one more at a place.
fn count(counts: &mut [u64; 24], place: usize) {
    if let Some(counted) = counts.get_mut(place) {
        *counted = counted.saturating_add(1);
    }
}

// Counts a case that differs, and names it if it is one of the first ten.
fn count_different(to: &impl Print, counts: &mut [u64; 24]) -> io::Result<()> {
    count(counts, DIFFER);
    if counts[DIFFER] <= 10 {
        to.println(format_args!("case {} differs", counts[CASES]))?;
    }
    Ok(())
}

// Replays and counts the case that begins at a byte and gives the place of the next; the list's end if the case is cut short.
fn replay_case(
    to: &impl Print,
    cases: &[u8],
    at: usize,
    counts: &mut [u64; 24],
) -> io::Result<usize>
    requires { at < length cases.now }
    ensures { IfOk result (λ next. (at < next) × (next ≤ length cases.now)) }
{
    count(counts, CASES);
    if cases.len() - at < HEAD {
        count_different(to, counts)?;
        return Ok(cases.len());
    }
    let states = at + HEAD;
    let listed = number(cases, at + 52) as usize;
    let put = number(cases, at + 56) as usize;
    if cases.len() - states < put + listed {
        count_different(to, counts)?;
        return Ok(cases.len());
    }
    let productions = states + put;
    let next = productions + listed;
    count(counts, number(cases, at + 40) as usize);
    if !replay_in_rooms(
        cases,
        at,
        &cases[states..productions],
        &cases[productions..next],
    ) {
        count_different(to, counts)?;
    }
    Ok(next)
}

// Replays all cases: they stand behind the bytes that they share. Each gives the place of the next, so no range goes through them.
fn replay_all(to: &impl Print, cases: &[u8], counts: &mut [u64; 24]) -> io::Result<()> {
    if cases.len() < 4 {
        return Ok(());
    }
    let mut at = 4 + number(cases, 0) as usize;
    while at < cases.len() {
        at = replay_case(to, cases, at, counts)?;
    }
    Ok(())
}

// Writes the counts: of the grammar's and the driver's refusals in the order of their numbers.
fn write_counts(to: &impl Print, counts: &[u64; 24]) -> io::Result<()> {
    to.println(format_args!("accepted: {}", counts[0]))?;
    for (number, count) in counts.iter().enumerate() {
        if (3..9).contains(&number) || (15..22).contains(&number) {
            to.println(format_args!("refused {number}: {count}"))?;
        }
    }
    to.println(format_args!("{} cases, {} differ", counts[CASES], counts[DIFFER]))
}

// The cases are read at once, 655,360 bytes of them at most; more than that is not run, and said to be left over.
fn main(rt: HostRuntime) -> io::Result<()> {
    let mut space: [u8; 655360] = filled(0);
    let mut counts = [0u64; 24];
    let file = input::files::read(&mut rt.stdin(), &mut space)?;
    replay_all(&rt, &space[..file.size], &mut counts)?;
    write_counts(&rt, &counts)?;
    if file.longer {
        rt.write_all(b"input left over\n")?;
    }
    Ok(())
}
