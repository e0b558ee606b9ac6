//! Plays the schedule on standard input and prints its report.
#![tactic(auto)]

ghost use Rattle.std.specs.Prelude.{◌≤◌, length, IfOk};

use play::{GrantEntry, REPORT_BYTES, RefusalEntry, write_report};
use schedule::Event;
use std::io;
use std::io::{Read, Write};
use trails::Trail;

/// One byte more than the longest schedule, so that a longer one is seen to be too long.
const INPUT_BYTES: usize = 60_001;

/// How many grants, and how many refusals, are kept.
const KEPT: usize = 64;

// Reads until the buffer is full or the input ends, and tells how many bytes came. Each read asks for all that there is room for, as
// an input that keeps messages apart (a packet socket) throws away the rest of one that is asked for in pieces; so no `io::copy`.
fn fill<R: Read>(from: &mut R, buf: &mut [u8]) -> io::Result<usize>
    ensures { IfOk result (λ n. n ≤ length buf.old) }
{
    let all = buf.len();
    let mut room = buf;
    while !room.is_empty() {
        let n = from.read(room)?;
        if n == 0 {
            break;
        }
        room = &mut room[n..];
    }
    Ok(all - room.len())
}

fn main(rt: HostRuntime) -> io::Result<()> {
    // An array and no `Vec`, which would stand on the C library's heap too.
    let mut input = [0u8; INPUT_BYTES];
    let length = fill(&mut rt.stdin(), &mut input)?;
    let mut granted = [GrantEntry::default(); KEPT];
    // Written out: an event has no derived default, as each of its cases holds a station.
    let mut refused = [RefusalEntry {
        event: Event::Start { station: 0 },
        index: 0,
        number: 0,
    }; KEPT];
    let mut grants = Trail::new(&mut granted);
    let mut refusals = Trail::new(&mut refused);
    let mut out = [0u8; REPORT_BYTES];
    let n = write_report(&input[..length], &mut out, &mut grants, &mut refusals);
    rt.stdout().write_all(&out[..n])
}
