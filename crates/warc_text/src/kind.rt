//! The types of record that an archive has.

/// The type of a record (ISO 28500, section 5.5).
#[derive(Clone, Copy)]
pub enum RecordKind {
    /// What a volume begins with.
    Info,
    /// A response whose body is kept.
    Response,
    /// A response whose payload is that of an earlier capture.
    Revisit,
    /// A request.
    Request,
}
