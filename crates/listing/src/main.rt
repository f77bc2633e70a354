// Lists a segment: reads standard input and writes what `list_input` makes of it, as docs/SERVICES.md, "The listing", says. An
// input that could not be read to its end is not listed: one line on standard error says why.
#![tactic(auto)]

ghost use Rattle.std.specs.Prelude.{◌≡◌, ◌≤◌, length, IfOk};

use list_place::Place;
use std::io::{self, Read, Write};

// Reads until the input ends or the buffer is full: a short read is not the end.
fn read_input(source: &mut impl Read, buf: &mut [u8]) -> io::Result<usize>
    ensures { IfOk result (λ n. n ≤ length buf.old) }
{
    let mut done = 0;
    // how many reads it takes is the system's
    while done < buf.len() {
        let more = source.read(&mut buf[done..])?;
        if more == 0 {
            break;
        }
        done += more;
    }
    Ok(done)
}

// What is written of an input, a buffer at a time.
fn list(sink: &mut impl Write, input: &[u8], out: &mut [u8]) -> io::Result<()>
    requires { 2169 ≤ length out.old }
{
    let mut place = Place::RecordCount;
    // the places follow one another: their number is not known before
    while !place.is_done() {
        let stop = list_input::more(input, place, out);
        sink.write_all(&out[..stop.end])?;
        place = stop.next;
    }
    Ok(())
}

// The system's words for an error, without its number.
fn words(said: &str) -> &str {
    match said.split_once(" (os error ") {
        Some((words, _)) => words,
        None => said,
    }
}

fn fail(rt: &HostRuntime, what: &str, e: io::Error) -> io::Result<()> {
    let said = format!(in rt.alloc(); "{e}")?;
    eprintln!(rt; "{what}: {}", words(said.as_str()))
}

// Room for many lines, since each call for a part makes the whole check.
fn page() -> [u8; 1048576]
    ensures { length result ≡ 1048576 }
{
    [0; 1048576]
}

fn main(rt: HostRuntime) -> io::Result<()> {
    let mut buf = [0u8; list_input::ENOUGH];
    let n = match read_input(&mut rt.stdin(), &mut buf) {
        Ok(n) => n,
        Err(e) => return fail(&rt, "standard input", e),
    };
    let mut out = page();
    list(&mut rt.stdout(), &buf[..n], &mut out).or_else(|e| fail(&rt, "standard output", e))
}
