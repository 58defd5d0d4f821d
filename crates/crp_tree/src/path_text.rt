ghost use Rattle.std.specs.Prelude.{Some};
ghost use Rattle.crp_tree.specs.Names.{name_text};

use std::fmt::{self, Display, Formatter, Write};

/// The rows of a path, shown as a certificate names a part: `/` where there are none, else the rows
/// joined by points.
#[derive(Clone, Copy)]
pub struct PathText<'a>(pub &'a [u8]);

impl Display for PathText<'_> {
    ghost output = { λ path. Some (name_text path.0.now) };

    fn fmt<W: Write>(&self, f: &mut Formatter<W>) -> fmt::Result {
        let Some((first, others)) = self.0.split_first() else {
            return write!(f, "/");
        };
        write!(f, "{first}")?;
        for row in others {
            write!(f, ".{row}")?;
        }
        Ok(())
    }
}
