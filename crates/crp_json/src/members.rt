//! Writing members of objects.
ghost use Rattle.std.specs.Prelude.{codes};
ghost use Rattle.crp_json.specs.Adding.{Adds};
ghost use Rattle.crp_json.specs.Objects.{member, text_token, number_token, number_or_null, bay_tokens, bytes_member};

use crp_plan::BayName;
use json::Writer;
use std::alloc::{AllocError, Global};

/// Adds a member that is a number.
pub(crate) fn push_number(out: &mut Writer, name: &str, n: u64) -> Result<(), AllocError>
    ensures { Adds result out.old out.new (member name.now (number_token n)) }
{
    out.key(name)?;
    out.u64(n)
}

/// Adds a member that is a text.
pub(crate) fn push_text(out: &mut Writer, name: &str, text: &str) -> Result<(), AllocError>
    ensures { Adds result out.old out.new (member name.now (text_token text.now)) }
{
    out.key(name)?;
    out.string(text)
}

/// Adds a member that is a number or null.
pub(crate) fn push_option(out: &mut Writer, name: &str, n: Option<u32>) -> Result<(), AllocError>
    ensures { Adds result out.old out.new (member name.now (number_or_null n)) }
{
    match n {
        Some(n) => push_number(out, name, n as u64),
        None => {
            out.key(name)?;
            out.null()
        }
    }
}

/// Adds the member of a text: its bytes, or under the other name their hexadecimal digits where they are no UTF-8.
pub(crate) fn push_bytes(
    alloc: Global,
    out: &mut Writer,
    name: &str,
    hex_name: &str,
    bytes: &[u8],
) -> Result<(), AllocError>
    ensures { Adds result out.old out.new (bytes_member name.now hex_name.now bytes.now) }
{
    match str::from_utf8(bytes) {
        Ok(text) => push_text(out, name, text),
        Err(_) => {
            let digits = hex::encode(alloc, bytes)?;
            push_text(out, hex_name, digits.as_str())
        }
    }
}

/// Adds the name of a bay.
pub(crate) fn push_bay(out: &mut Writer, bay: &BayName) -> Result<(), AllocError>
    ensures { Adds result out.old out.new (member (codes "bay") (bay_tokens bay.now)) }
{
    out.key("bay")?;
    out.begin_object()?;
    let Ok(block) = str::from_utf8(bay.block()) else {
        unreachable!()
    };
    push_text(out, "block", block)?;
    push_number(out, "bay", bay.bay() as u64)?;
    out.end_object()
}
