/// What is counted of one client on the way through the events.
#[derive(Clone, Copy)]
pub(crate) struct Counts {
    /// How many of its commands have ended.
    pub(crate) ended: u32,
    /// The version that stands.
    pub(crate) standing: u32,
    /// The version that stood at its last question.
    pub(crate) asked: u32,
}
