//! What a walk along links found. The type stands apart from the function, since names may not differ in
//! case alone.

/// The records that a walk met, in order, and where and after how many steps it stopped.
#[derive(Debug, PartialEq, Eq, Drop)]
pub struct Walk {
    /// The numbers of the records, each once.
    pub met: Vec<u16>,
    /// The link at which the walk stopped.
    pub end: u16,
    /// How many links it followed.
    pub steps: u32,
}
