/// What reading on in a text found.
#[derive(Clone, Copy, Debug, PartialEq, Eq)]
pub enum Found {
    /// A line that ends with byte 10.
    Line,
    /// The last line, which ends with the text.
    Last,
    /// The end of the text.
    End,
    /// A line with more bytes than a line may have.
    TooLong,
}

/// What looking through the bytes that were read found.
#[derive(Clone, Copy, Debug, PartialEq, Eq)]
pub enum Scanned {
    /// The rest of the line, and its end.
    Line,
    /// More of the line, and no end.
    More,
    /// More bytes than a line may have.
    TooLong,
}
