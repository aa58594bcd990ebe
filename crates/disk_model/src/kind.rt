//! The two kinds of files.

/// The kind of a file. The files of each kind are numbered from 0.
#[derive(Clone, Copy, Debug, PartialEq, Eq)]
pub enum Kind {
    /// A volume of records (WARC, ISO 28500).
    Warc,
    /// A checkpoint of index lines (CDXJ).
    Cdxj,
}
