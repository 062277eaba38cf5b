use thiserror::Error;

/// The fault of a line: the first of these tests, in this order, that it fails.
#[derive(Clone, Copy, Debug, PartialEq, Eq, Error)]
pub enum TextFault {
    /// The last line has no line feed.
    #[error("cut")]
    Cut,
    /// A byte is outside 0x20 to 0x7E.
    #[error("byte")]
    Byte,
    /// It has the form of no line.
    #[error("form")]
    Form,
    /// It stands out of its place.
    #[error("order")]
    Order,
    /// A word that has to be a number is none.
    #[error("number")]
    Number,
    /// A number is outside its range.
    #[error("large")]
    Large,
    /// A word that has to be a name is none.
    #[error("name")]
    Name,
    /// A word names nothing that there is.
    #[error("unknown")]
    Unknown,
    /// It goes beyond a count.
    #[error("many")]
    Many,
    /// It repeats a line that may stand once.
    #[error("twice")]
    Twice,
}
