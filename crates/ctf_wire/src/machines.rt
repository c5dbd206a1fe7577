//! What answers lines: the trait `Machine`.
ghost use Rattle.std.specs.Prelude.{ℕ, List, Option, Some, None};
ghost use Rattle.ctf_wire.specs.Room.{HasReplyRoom, Replies};

use ctf_lines::Scratch;

/// Answers one line at a time, each with one reply.
pub trait Machine {
    /// From the state `old`, the line (none: a line that was too long to be stored) may have this
    /// reply and lead to the state `new`.
    ghost Step: { Self → Option (List ℕ) → List ℕ → Self → Type 0 };

    /// Answers a line, with memory that is kept from line to line. The reply is appended to `out`.
    fn step(&mut self, scratch: &mut Scratch, line: &[u8], out: &mut Vec<u8>)
        requires { HasReplyRoom out.old }
        ensures { (reply : List ℕ) × Step self.old (Some line.now) reply self.new
            × Replies out.old reply out.new };

    /// Answers a line that was too long to be stored.
    fn step_too_long(&mut self, out: &mut Vec<u8>)
        requires { HasReplyRoom out.old }
        ensures { (reply : List ℕ) × Step self.old None reply self.new
            × Replies out.old reply out.new };
}
