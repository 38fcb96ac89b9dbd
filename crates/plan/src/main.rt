// Reads a circuit on standard input and prints its schedule, or one line of `refused`, number and place.
// The first 4,400 bytes decide what is printed, so no more than the buffer holds is read. Where reading fails, nothing is printed.
#![tactic(auto)]

ghost use Rattle.std.specs.Prelude.{◌≤◌, length, IfOk};

use std::io::{self, Print, Read};

// Reads until the buffer is full, the input ends or a read fails. What a full buffer leaves unread decides nothing.
fn read_input<R: Read>(input: &mut R, buffer: &mut [u8]) -> io::Result<usize>
    requires { 4400 ≤ length buffer.old }
    ensures { IfOk result (λ n. n ≤ length buffer.new) }
{
    inputs::read_full(input, buffer)
}

fn main(rt: HostRuntime) -> io::Result<()> {
    // Room for the bytes that decide, rounded up to 9 times 512.
    let mut input = [0u8; 4608];
    let Ok(count) = read_input(&mut rt.stdin(), &mut input) else {
        return Ok(());
    };
    let mut out = [0u8; 131072];
    let printed = output::print_plan(&input[..count], &mut out);
    rt.write_all(&out[..printed])
}
