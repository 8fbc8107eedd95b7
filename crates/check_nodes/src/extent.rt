/// How far an array reaches: its sizes in elements, the outermost first. The first one isn't
/// known of an open array. A third size counts behind a second one alone.
#[derive(Clone, Copy, Debug, PartialEq, Eq)]
pub struct Extent {
    pub first: Option<u32>,
    pub second: Option<u32>,
    pub third: Option<u32>,
}
