// What one weighing is.
use std::fmt;

// The grams that a scale showed.
#[derive(Clone, Copy, Default)]
pub struct Weighing {
    pub scale: u32,
    pub grams: i32,
}

// SCALE:GRAMS.
impl fmt::Display for Weighing {
    fn fmt<W: fmt::Write>(&self, f: &mut fmt::Formatter<W>) -> fmt::Result {
        let scale = self.scale;
        let grams = self.grams;
        write!(f, "{scale}:{grams}")
    }
}
