ghost use Rattle.std.specs.Prelude.{◌↔◌, IsTrue};
ghost use Rattle.crp_row.specs.Reasons.{IsReasonByte};

/// Whether a byte may stand in the text of reasons.
pub fn is_reason_byte(byte: u8) -> bool
    ensures { IsTrue result ↔ IsReasonByte byte }
{
    b"BLTRF0123456789.,;".contains(&byte)
}
