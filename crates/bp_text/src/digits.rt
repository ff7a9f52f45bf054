ghost use Rattle.std.specs.Prelude.{◌≡◌, ◌^◌, ◌-◌, ◌≤◌, ◌↔◌, IsTrue, length, slice_index};
ghost use Rattle.bp_base.specs.Limits.{most_number};
ghost use Rattle.bp_text.specs.Numbers.{ReadsDecimal, most_long_number};

/// The number of which the bytes are the canonical decimal, of at most nine digits.
/// None exactly where they are no such text.
pub fn number(bytes: &[u8]) -> Option<u64>
    ensures { ReadsDecimal most_number bytes.now result }
{
    decimal_of(bytes, 9)
}

/// The number of which the bytes are the canonical decimal, of at most ten digits.
/// None exactly where they are no such text.
pub fn long_number(bytes: &[u8]) -> Option<u64>
    ensures { ReadsDecimal most_long_number bytes.now result }
{
    decimal_of(bytes, 10)
}

fn decimal_of(bytes: &[u8], digits: usize) -> Option<u64>
    requires some { 1 ≤ digits }
    requires few { digits ≤ 10 }
    ensures { ReadsDecimal (10 ^ digits - 1) bytes.now result }
{
    if !is_short(bytes, digits) {
        return None;
    }
    let mut value: u64 = 0;
    for byte in bytes {
        if !byte.is_ascii_digit() {
            return None;
        }
        value = value * 10 + u64::from(*byte - b'0');
    }
    Some(value)
}

// Some bytes, at most so many, and no zero before others.
fn is_short(bytes: &[u8], digits: usize) -> bool
    ensures { IsTrue result ↔ ((1 ≤ length bytes.now) × (length bytes.now ≤ digits) × (slice_index bytes.now 0 ≡ 48 → length bytes.now ≡ 1)) }
{
    !bytes.is_empty() && bytes.len() <= digits && (bytes.len() == 1 || bytes[0] != b'0')
}
