// What the program prints: the plan of a circuit, or the line of its refusal.
#![tactic(auto)]

ghost use Rattle.std.specs.Prelude.{◌≤◌, length};
ghost use Rattle.services.specs.Program.{ProgramPromise};

// The exact bytes for standard output, at the front of `out`, and how many there are. Any plan has room in so many bytes.
pub fn print_plan(input: &[u8], out: &mut [u8]) -> usize
    requires { 131072 ≤ length out.old }
    ensures { ProgramPromise input.now out.old result out.new }
{
    let reply = planner::plan(input, out);
    if reply.number == 0 {
        return reply.length as usize;
    }
    writer::put_refused(out, 0, reply.number, reply.place)
}
