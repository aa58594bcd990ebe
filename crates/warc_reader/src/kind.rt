//! The types of records that an import tells apart.

/// What the field WARC-Type says (ISO 28500:2017, section 6).
#[derive(Clone, Copy)]
pub enum Kind {
    /// `response`
    Response,
    /// `revisit`
    Revisit,
    /// `request`
    Request,
    /// Any other type, which is passed over.
    Other,
}
