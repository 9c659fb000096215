//! Layer 2 units as a program. `unit write LENGTH DELIMITER AUDIO OPPORTUNISTIC FIXED`: the unit of these files on standard output. `unit read LENGTH
//! DELIMITER AUDIO-LENGTH FIXED-LENGTH UNIT AUDIO OPPORTUNISTIC FIXED`: the parts of the unit in a file, into files. `-` stands for no file. Where it
//! refuses it says so on standard error, by number and in words, and writes nothing; so where the file goes on behind its unit.
//!
//! Of a file the first 65,536 bytes are read: no unit holds as many, so the answer is that of the whole file. A number above 64 bits counts as the
//! greatest one: that is above every length.
#![tactic(auto)]

ghost use Rattle.std.specs.Prelude.{◌<◌, IfSome};

use console::{ARGUMENT, PIECE, Speak, is_argument, say};
use std::env::Env;
use std::io::{ErrorKind, Read, Write};
use std::process::ExitCode;
use std::rt::Files;
use std::{fs, io};

// A unit's length in bits, which is no length of what stands beside it, and the delimiter.
#[derive(Clone, Copy)]
struct Asked {
    size: usize,
    delimiter: [u8; 5],
}

fn main(rt: HostRuntime) -> ExitCode {
    console::status(run(&rt))
}

// What the first argument asks for.
fn run(rt: &(impl Env + Files + Alloc + Print + Speak)) -> io::Result<()> {
    let count = console::argument_count(rt);
    if count == 7 && is_argument(rt, 1, b"write") {
        return write(rt);
    }
    if count == 10 && is_argument(rt, 1, b"read") {
        return read(rt);
    }
    usage(rt);
    Ok(())
}

fn usage(rt: &impl Speak) {
    say(
        rt,
        b"usage: unit write LENGTH DELIMITER AUDIO OPPORTUNISTIC FIXED\n",
    );
    say(
        rt,
        b"usage: unit read LENGTH DELIMITER AUDIO-LENGTH FIXED-LENGTH UNIT AUDIO OPPORTUNISTIC FIXED\n",
    );
}

// A unit written.
fn write(rt: &(impl Env + Files + Alloc + Print + Speak)) -> io::Result<()> {
    let Some(asked) = settings(rt) else {
        usage(rt);
        return Ok(());
    };
    let mut audio_space = [0u8; PIECE];
    let mut opportunistic_space = [0u8; PIECE];
    let mut fixed_space = [0u8; PIECE];
    let audio = get(rt, 4, &mut audio_space);
    let opportunistic = get(rt, 5, &mut opportunistic_space);
    let fixed = get(rt, 6, &mut fixed_space);
    match (audio, opportunistic, fixed) {
        (Some(audio), Some(opportunistic), Some(fixed)) => {
            write_parts(rt, asked, audio, opportunistic, fixed)
        }
        _ => Ok(()),
    }
}

// .. of these parts.
fn write_parts(
    rt: &(impl Print + Speak),
    asked: Asked,
    audio: &[u8],
    opportunistic: &[u8],
    fixed: &[u8],
) -> io::Result<()> {
    let mut out = [0u8; PIECE];
    let Asked { size, delimiter } = asked;
    let written = unit::write(size, delimiter, audio, opportunistic, fixed, &mut out);
    console::put(rt, b"unit", written, &out)?;
    Ok(())
}

// A unit read.
fn read(rt: &(impl Env + Files + Alloc + Speak)) -> io::Result<()> {
    let told = (
        settings(rt),
        console::number(rt, 4, ARGUMENT),
        console::number(rt, 5, ARGUMENT),
    );
    let (Some(asked), Some(audio), Some(fixed)) = told else {
        usage(rt);
        return Ok(());
    };
    let mut space = [0u8; PIECE];
    match get(rt, 6, &mut space) {
        Some(unit) => read_parts(rt, asked, audio, fixed, unit),
        None => Ok(()),
    }
}

// .. of these bytes, with these told lengths: its parts, into files.
fn read_parts(
    rt: &(impl Env + Files + Alloc + Speak),
    asked: Asked,
    audio: usize,
    fixed: usize,
    unit: &[u8],
) -> io::Result<()> {
    let mut out = [0u8; PIECE];
    let Asked { size, delimiter } = asked;
    match unit::read(size, delimiter, audio, fixed, unit, &mut out) {
        Ok(n) => {
            let end = size.div_ceil(8);
            if unit.len() > end {
                say_behind(rt, end);
                return Ok(());
            }
            store_all(rt, audio, fixed, &out[..n.min(out.len())])
        }
        Err(refusal) => {
            console::say_refusal(rt, b"unit", refusal as u8);
            Ok(())
        }
    }
}

// A file that goes on behind its unit holds another one, or its length is another.
fn say_behind(rt: &impl Speak, end: usize) {
    say(rt, b"unit: the unit ends at byte ");
    console::say_number(rt, end as u64);
    say(rt, b", and the file goes on: nothing is written\n");
}

// Audio, what lies between, and fixed data.
fn store_all(
    rt: &(impl Env + Files + Alloc + Speak),
    audio: usize,
    fixed: usize,
    parts: &[u8],
) -> io::Result<()> {
    let (audio, behind) = parts.split_at(audio.min(parts.len()));
    let (opportunistic, fixed) = behind.split_at(behind.len().saturating_sub(fixed));
    store(rt, 7, audio)?;
    store(rt, 8, opportunistic)?;
    store(rt, 9, fixed)
}

// Bytes into the file that an argument names; where that fails it is said why, but nothing is where its reader has gone.
fn store(rt: &(impl Env + Files + Alloc + Speak), i: usize, bytes: &[u8]) -> io::Result<()> {
    if is_argument(rt, i, b"-") {
        return Ok(());
    }
    let mut space = [0u8; ARGUMENT];
    let name = console::argument(rt, i, &mut space);
    match write_file(rt, name, bytes) {
        Ok(()) => Ok(()),
        Err(error) => {
            if error.kind() != ErrorKind::BrokenPipe {
                say_failed(rt, name, error);
            }
            Err(error)
        }
    }
}

// Bytes into the file of this name.
fn write_file(rt: &impl Files, name: &[u8], bytes: &[u8]) -> io::Result<()> {
    let mut file = fs::create(rt, path(name)?)?;
    file.write_all(bytes)
}

// A file's name, which is UTF-8.
fn path(name: &[u8]) -> io::Result<&str> {
    str::from_utf8(name).map_err(|_| io::Error::from(ErrorKind::InvalidFilename))
}

// The first bytes of the file that an argument names, in a space that is lent; where that fails it was said why.
fn get<'a>(
    rt: &(impl Env + Files + Alloc + Speak),
    i: usize,
    space: &'a mut [u8],
) -> Option<&'a [u8]> {
    if is_argument(rt, i, b"-") {
        return Some(&[]);
    }
    let mut text = [0u8; ARGUMENT];
    let name = console::argument(rt, i, &mut text);
    match read_file(rt, name, space) {
        Ok(bytes) => Some(bytes),
        Err(error) => {
            say_failed(rt, name, error);
            None
        }
    }
}

// The first bytes of the file of this name, in as much space as is lent. No Vec of them: there may be no memory to ask for, and std reads into one by
// steps, the first of 512 bytes; a pipe that hands out whole messages drops what a step has no room for.
fn read_file<'a>(rt: &impl Files, name: &[u8], space: &'a mut [u8]) -> io::Result<&'a [u8]> {
    let mut file = fs::open(rt, path(name)?)?;
    let mut n: usize = 0;
    // How many bytes a read gives is known only behind it, so that no `for` counts them.
    while n < space.len() {
        let more = file.read(&mut space[n..])?;
        if more == 0 {
            break;
        }
        n += more;
    }
    Ok(&space[..n])
}

// `unit: NAME: WORDS`, a line, in the system's words for an error.
fn say_failed(rt: &(impl Alloc + Speak), name: &[u8], error: io::Error) {
    say(rt, b"unit: ");
    say(rt, name);
    say(rt, b": ");
    say_error(rt, error);
    say(rt, b"\n");
}

// .. without the number that stands behind them.
fn say_error(rt: &(impl Alloc + Speak), error: io::Error) {
    let Ok(text) = error.to_string(rt.alloc()) else {
        say(rt, b"the file cannot be used");
        return;
    };
    match text.as_str().split_once(" (os error ") {
        Some((words, _)) => say(rt, words.as_bytes()),
        None => say(rt, text.as_bytes()),
    }
}

// Length and delimiter.
fn settings(rt: &impl Env) -> Option<Asked> {
    let mut space = [0u8; ARGUMENT];
    Some(Asked {
        size: console::number(rt, 2, ARGUMENT)?,
        delimiter: delimiter(console::argument(rt, 3, &mut space))?,
    })
}

// Five bytes, in ten hexadecimal digits.
fn delimiter(text: &[u8]) -> Option<[u8; 5]> {
    let &[a, b, c, d, e, f, g, h, i, j] = text else {
        return None;
    };
    Some([
        byte(a, b)?,
        byte(c, d)?,
        byte(e, f)?,
        byte(g, h)?,
        byte(i, j)?,
    ])
}

fn byte(high: u8, low: u8) -> Option<u8> {
    Some(digit(high)? * 16 + digit(low)?)
}

// A hexadecimal digit's value.
fn digit(b: u8) -> Option<u8>
    ensures { IfSome result (λ d. d < 16) }
{
    let digit = char::from(b).to_digit(16)?;
    Some(digit as u8)
}
