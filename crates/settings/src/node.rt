// An entry of a rule with its ring: a leaf with the kind and the statement of its line, or a gate.
ghost use Rattle.std.specs.Prelude.{◌≡◌};
ghost use Rattle.releases.specs.Entries.{leaf};

use kinds::Image;
use rings::Line;
use rules::Children;

#[derive(Clone, Copy)]
pub enum Node {
    Leaf { kind: u8, statement: Image },
    Gate { threshold: u8, children: Children },
}

impl From<Line> for Node {
    ghost use Rattle.settings.specs.Nodes.{entry_of};

    ghost from_gives = { λ line node. entry_of node ≡ leaf line.kind line.image };

    #[tactic(auto, unfolding(crate::specs::Nodes::entry_of))]
    fn from(line: Line) -> Node {
        Node::Leaf {
            kind: line.kind,
            statement: line.image,
        }
    }
}

// A leaf of a rule: the position of its entry, its kind and its statement.
#[derive(Clone, Copy)]
pub struct Leaf {
    pub entry: usize,
    pub kind: u8,
    pub statement: Image,
}
