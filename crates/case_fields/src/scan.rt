// Where a byte stands.
ghost use Rattle.std.specs.Prelude.{◌≡◌, ◌<◌, length, unwrap_or, IfSome};
ghost use Rattle.case_fields.specs.Line.{index_of};

// The first place of a byte, if it occurs.
pub fn find(bytes: &[u8], byte: u8) -> Option<usize>
    ensures value { unwrap_or result (length bytes.now) ≡ index_of byte bytes.now }
    ensures within { IfSome result (λ k. k < length bytes.now) }
{
    bytes.iter().position(|x| *x == byte)
}
