// Label keys.
ghost use Rattle.keys.specs.Laws.{labels_lawful};

use crate::key::Key;
use std::fmt;

// Eight bytes, compared byte by byte.
#[derive(Clone, Copy, Default, PartialEq, Eq, PartialOrd, Ord)]
pub struct Label {
    pub bytes: [u8; 8],
}

impl Key for Label {
    ghost lawful = { labels_lawful };
}

// 16 hexadecimal digits.
impl fmt::Display for Label {
    ghost use Rattle.std.specs.Prelude.{Some};
    ghost use Rattle.keys.specs.Shown.{label_text};

    ghost output = { λ l. Some (label_text l) };

    fn fmt<W: fmt::Write>(&self, f: &mut fmt::Formatter<W>) -> fmt::Result {
        for b in self.bytes {
            write!(f, "{b:02x}")?;
        }
        Ok(())
    }
}
