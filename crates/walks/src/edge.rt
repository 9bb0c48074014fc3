/// A fairway between two berths, as one line of an edges sheet gives it. Its numbers may be any: an edge with an end that is
/// no berth can be held, and is on no walk.
#[derive(Clone, Copy, PartialEq, Eq, Debug)]
pub struct Edge {
    /// The number that the edge goes by.
    pub number: u16,
    /// The berth at one end.
    pub left: u8,
    /// The berth at the other end.
    pub right: u8,
    /// How long it takes to run the edge, in minutes.
    pub length: u16,
    /// The line of the sheet that the edge came from.
    pub line: usize,
}
