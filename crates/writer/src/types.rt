// How the code holds a call: its tags, and its values with what the message says of them.
use crate::Given;
use kinds::Kind;

// For each tag, by its place: whether the message has it, and whether it must.
#[derive(Clone, Copy)]
pub struct Marks {
    pub own: u32,
    pub needed: u32,
}

// A tag and the kind of its values.
#[derive(Clone, Copy)]
pub struct Slot(pub u64, pub Kind);

// A tag with what the message says of it, and the value that the call has for it.
#[derive(Clone, Copy)]
pub struct Entry {
    pub tag: u64,
    pub kind: Kind,
    pub own: bool,
    pub needed: bool,
    pub value: Option<Given>,
}
