// The two kinds of groups, by name.
use std::fmt;

#[derive(Clone, Copy, PartialEq, Eq, Debug)]
pub enum Kind {
    Residue,
    Circle,
}

impl Kind {
    pub fn name(self) -> &'static str {
        match self {
            Kind::Residue => "residue",
            Kind::Circle => "circle",
        }
    }
}

impl fmt::Display for Kind {
    fn fmt<W: fmt::Write>(&self, f: &mut fmt::Formatter<W>) -> fmt::Result {
        let name = self.name();
        write!(f, "{name}")
    }
}
