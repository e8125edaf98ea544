// The program: reads a roster of at most 4,263 bytes from standard input and prints the finder's answer. Where a read fails it prints nothing to
// standard output and says so on standard error; where a write fails, or takes only a part of the text, it says that too.
#![tactic(auto)]

ghost use Rattle.std.specs.Prelude.{◌≤◌, length};

use limits::TEXT_SIZE;
use std::io::{Print, Read};

// How many bytes were read, and whether every read was in order.
#[derive(Drop)]
struct Input {
    read: usize,
    fine: bool,
}

// Reads until the buffer is full or the input ends. The operating system may hand the input over in pieces.
fn read_input<R: Read>(from: &mut R, buf: &mut [u8]) -> Input
    ensures { result.read ≤ length buf.new }
{
    let mut done: usize = 0;
    while done < buf.len() {
        match from.read(&mut buf[done..]) {
            Ok(n) => {
                if n == 0 {
                    break;
                }
                done += n;
            }
            Err(_) => {
                return Input {
                    read: done,
                    fine: false,
                };
            }
        }
    }
    Input {
        read: done,
        fine: true,
    }
}

// The answer to what was read.
fn print_answer(rt: HostRuntime, input: &[u8]) {
    let mut out = [0u8; TEXT_SIZE];
    let k = program::answer(input, &mut out);
    let written = rt.stdout().write_all(&out[..k]);
    if written.is_err() {
        let _told = rt
            .stderr()
            .write_all(b"crew: the answer cannot be written\n")
            .is_ok();
    }
}

fn main(rt: HostRuntime) {
    let mut input = program::input_buffer();
    let mut from = rt.stdin();
    let r = read_input(&mut from, &mut input);
    if !r.fine {
        let _told = rt
            .stderr()
            .write_all(b"crew: the roster cannot be read\n")
            .is_ok();
        return;
    }
    let n = r.read;
    print_answer(rt, &input[..n]);
}
