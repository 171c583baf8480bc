// The line that a goal with a rule of its own adds to the path. Each function is a definition of the crate machine, and its contract
// says so.
ghost use Rattle.std.specs.Prelude.{◌≡◌};
ghost use Rattle.machine.specs.Records.{put_path};
ghost use Rattle.machine.specs.RegisterUpdates.{with_path};
ghost use Rattle.machine.specs.Words.{increment};

use machine::Registers;
use machine_memory::records::put_path;
use machine_memory::registers::with_path;
use machine_memory::words::increment;

// The path so far is noted in the act's record, which the path now ends in: its latest line is that of the goal.
pub fn extend_path(w: &mut [u32], r: Registers, line: u32) -> Registers
    ensures memory { w.new ≡ put_path w.old r.acts r.path r.line }
    ensures registers { result ≡ with_path r (increment r.acts) line }
{
    put_path(w, r.acts, r.path, r.line);
    with_path(r, increment(r.acts), line)
}
