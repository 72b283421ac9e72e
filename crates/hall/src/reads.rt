// What the stab and the readouts tell where they are not refused.
use crate::keys::Key;

// Flags and count of the marks met, how many those were, and the looks. On sound memory the flags are those of the bands that hold the key.
#[derive(Clone, Copy, Debug, PartialEq, Eq)]
pub struct StabRead {
    pub flags: [u64; 16],
    pub count: u32,
    pub met: u32,
    pub looks: u32,
}

// A live band's scope, ends and closed ends.
#[derive(Clone, Copy, Debug, PartialEq, Eq)]
pub struct BandRead {
    pub scope: u32,
    pub low: Key,
    pub high: Key,
    pub low_closed: bool,
    pub high_closed: bool,
}

// The key of the node that comes next in the lane, or none, and the flags marked on the way there.
#[derive(Clone, Copy, Debug, PartialEq, Eq)]
pub struct EdgeRead {
    pub next: Option<Key>,
    pub flags: [u64; 16],
}

// A node's level, and the flags marked there.
#[derive(Clone, Copy, Debug, PartialEq, Eq)]
pub struct NodeRead {
    pub level: u32,
    pub flags: [u64; 16],
}

// Nodes and marks in use.
#[derive(Clone, Copy, Debug, PartialEq, Eq)]
pub struct RoomRead {
    pub nodes: u32,
    pub marks: u32,
}
