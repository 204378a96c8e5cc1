// What a program reads: the bytes of a reader, into a room that is lent, and whether they could be read.
ghost use Rattle.std.specs.Prelude.{IfOk};
ghost use Rattle.input.specs.Counts.{IsPrefixLen};

use std::io;
use std::io::Read;

// How many bytes were read, and whether there are more than the room holds: a fact of its own, on which no value hangs.
#[derive(Clone, Copy)]
pub struct File {
    pub size: usize,
    pub longer: bool,
}

// Reads until the bytes end or the room is full, and counts them. A read takes as many as it likes, so no iterator goes through them.
pub fn fill<R: Read>(from: &mut R, room: &mut [u8]) -> io::Result<usize>
    ensures { IfOk result (λ size. IsPrefixLen size room.new) }
{
    let mut size = 0;
    while size < room.len() {
        let more = from.read(&mut room[size..])?;
        if more == 0 {
            break;
        }
        size += more;
    }
    Ok(size)
}

// Reads all bytes of a reader into the room, as far as it holds them.
pub fn read<R: Read>(from: &mut R, room: &mut [u8]) -> io::Result<File>
    ensures { IfOk result (λ file. IsPrefixLen file.size room.new) }
{
    let size = fill(from, room)?;
    let mut next = [0u8; 1];
    let longer = size == room.len() && 0 < from.read(&mut next)?;
    Ok(File { size, longer })
}
