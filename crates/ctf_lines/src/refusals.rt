//! The line of a refusal, written in one step if there is room for the longest.
ghost use Rattle.std.specs.Prelude.{◌+◌, ◌≤◌, vec_len, vec_capacity};
ghost use Rattle.ctf_protocol.specs.lines.ReplyLines.{fault_line};
ghost use Rattle.ctf_lines.specs.Appending.{Appended, HasRoom};
ghost use Rattle.ctf_lines.specs.Rows.{fault_row};

use crate::appending::{append_bytes, append_number};
use ctf_protocol::{Fault, fault_name};
use std::mem::replace;

/// A list with the line of a refusal appended.
#[inline(always)]
fn with_fault(out: Vec<u8>, session: u64, code: u64, name: &[u8], place: u64) -> Vec<u8>
    requires { HasRoom out (fault_row session code name.now place) }
    ensures { Appended out result (fault_row session code name.now place) }
{
    let out = append_number(out, b"{\"fault\":{\"code\":", code, b",\"name\":\"");
    let out = append_bytes(out, name);
    let out = append_number(out, b"\",\"place\":", place, b"},\"s\":");
    append_number(out, b"", session, b"}\n")
}

/// Appends the line of a refusal, given in its parts, if there is room for the longest.
fn put_parts(out: &mut Vec<u8>, session: u32, code: u16, place: u64)
    requires { vec_len out.old + 96 ≤ vec_capacity out.old }
    ensures { Appended out.old out.new
        (fault_line session (record { code = code; place = place })) }
{
    let name = fault_name(code);
    let empty = Vec::new(*out.allocator());
    *out = with_fault(
        replace(out, empty),
        u64::from(session),
        u64::from(code),
        name.as_bytes(),
        place,
    );
}

/// Appends the line of a refusal, if there is room for the longest.
pub fn put_fault(out: &mut Vec<u8>, session: u32, fault: Fault)
    requires { vec_len out.old + 96 ≤ vec_capacity out.old }
    ensures { Appended out.old out.new (fault_line session fault) }
{
    put_parts(out, session, fault.code, fault.place);
}
