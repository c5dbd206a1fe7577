//! Appends numbers, for which there is room.
ghost use Rattle.std.specs.Prelude.{◌≡◌, ◌+◌, ◌≤◌, ◌++◌, length, vec_len, vec_capacity};
ghost use Rattle.ctf_model.specs.writing.WrittenRecords.{u16 as two_bytes, u32 as four_bytes, halves, field_bytes};

/// Appends bytes, for which there is room.
pub fn put(out: &mut Vec<u8>, bytes: &[u8])
    requires { vec_len out.old + length bytes.now ≤ vec_capacity out.old }
    ensures items { out.new.items ≡ out.old.items ++ bytes.now }
    ensures len { vec_len out.new ≡ vec_len out.old + length bytes.now }
    ensures capacity { vec_capacity out.new ≡ vec_capacity out.old }
{
    for byte in bytes {
        out.push_reserved(*byte);
    }
}

/// Appends many bytes at once, for which there is room.
pub fn copy(out: &mut Vec<u8>, bytes: &[u8])
    requires { vec_len out.old + length bytes.now ≤ vec_capacity out.old }
    ensures items { out.new.items ≡ out.old.items ++ bytes.now }
    ensures len { vec_len out.new ≡ vec_len out.old + length bytes.now }
    ensures capacity { vec_capacity out.old ≤ vec_capacity out.new }
{
    let _ = out.extend_from_slice(bytes);
}

pub fn put_u16(out: &mut Vec<u8>, number: u16)
    requires { vec_len out.old + 2 ≤ vec_capacity out.old }
    ensures items { out.new.items ≡ out.old.items ++ two_bytes number }
    ensures len { vec_len out.new ≡ vec_len out.old + 2 }
    ensures capacity { vec_capacity out.new ≡ vec_capacity out.old }
{
    put(out, &number.to_le_bytes())
}

pub fn put_u32(out: &mut Vec<u8>, number: u32)
    requires { vec_len out.old + 4 ≤ vec_capacity out.old }
    ensures items { out.new.items ≡ out.old.items ++ four_bytes number }
    ensures len { vec_len out.new ≡ vec_len out.old + 4 }
    ensures capacity { vec_capacity out.new ≡ vec_capacity out.old }
{
    put(out, &number.to_le_bytes())
}

/// A number in two halves, the high one first.
pub fn put_halves(out: &mut Vec<u8>, number: u64)
    requires { vec_len out.old + 8 ≤ vec_capacity out.old }
    ensures items { out.new.items ≡ out.old.items ++ halves number }
    ensures len { vec_len out.new ≡ vec_len out.old + 8 }
    ensures capacity { vec_capacity out.new ≡ vec_capacity out.old }
{
    put_u32(out, (number / 0x1_0000_0000) as u32);
    put_u32(out, (number % 0x1_0000_0000) as u32);
}

/// The length of a field, short or long.
pub fn field_len(number: u64) -> usize
    ensures exact { result ≡ length (field_bytes number) }
    ensures short { result ≤ 10 }
{
    if number < 65_535 { 2 } else { 10 }
}

/// A number in the field of a record, or after the mark of the long form.
pub fn put_field(out: &mut Vec<u8>, number: u64)
    requires { vec_len out.old + length (field_bytes number) ≤ vec_capacity out.old }
    ensures items { out.new.items ≡ out.old.items ++ field_bytes number }
    ensures len { vec_len out.new ≡ vec_len out.old + length (field_bytes number) }
    ensures capacity { vec_capacity out.new ≡ vec_capacity out.old }
{
    if number < 65_535 {
        put_u16(out, number as u16);
        return;
    }
    put_u16(out, 65_535);
    put_halves(out, number);
}
