// A gate as a command gives it, and the challenges of its children or of a rule's entries.
use bounded::Row;
use fields::Scalar;

// Its order, its own challenge with the word at which it stands, and those of its children, which stand after it, where they are known.
#[derive(Clone, Copy)]
pub struct Gate {
    pub(crate) q: u32,
    pub(crate) own: u32,
    pub(crate) place: u32,
    pub(crate) children: Row<Option<u32>, 8>,
}

#[derive(Clone, Copy)]
pub enum GateCommand {
    // the challenges of the children that are not known
    Fill(Gate),
    // does the gate balance that wants so many children?
    Check(u32, Gate),
}

// The challenges of a gate's children.
pub type Children = Row<Scalar, 8>;

// The challenges of a rule's entries.
#[derive(Clone, Copy)]
pub struct Challenges(pub(crate) Row<Scalar, 31>);
