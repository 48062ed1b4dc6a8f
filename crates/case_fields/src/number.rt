// Plain decimal numbers of 64 bits.
ghost use Rattle.std.specs.Prelude.{◌≡◌};
ghost use Rattle.case_fields.specs.DecimalField.{more, number_of};

// A number with one digit more, if the byte is a digit and the number has no more than 64 bits.
fn add_digit(value: u64, byte: u8) -> Option<u64>
    ensures { result ≡ more value byte }
{
    if !byte.is_ascii_digit() {
        return None;
    }
    value.checked_mul(10)?.checked_add(u64::from(byte - b'0'))
}

// A field that is one number: digits and nothing else, of which there is one at least.
pub fn read_number(field: &[u8]) -> Option<u64>
    ensures { result ≡ number_of field.now }
{
    if field.is_empty() {
        return None;
    }
    let mut value = 0;
    for byte in field {
        value = add_digit(value, *byte)?;
    }
    Some(value)
}
