//! The statuses of the program's own answers.
ghost use Rattle.std.specs.Prelude.{◌≡◌};
ghost use Rattle.head_lines.specs.Lines as spec;
ghost use Rattle.head_lines.specs.Statuses.{reason_phrase, status_code};

/// A status that the program answers with by itself (RFC 9110, section 15).
#[derive(Clone, Copy)]
pub enum Status {
    /// 200: what was asked for follows.
    Ok,
    /// 302: it is found elsewhere.
    Found,
    /// 400: the request isn't understood.
    BadRequest,
    /// 404: there is no such thing here.
    NotFound,
    /// 405: the method isn't served.
    MethodNotAllowed,
    /// 413: the body is too long.
    ContentTooLarge,
    /// 431: the head is too long (RFC 6585, section 5).
    HeadTooLarge,
    /// 500: the fault is the program's.
    InternalServerError,
    /// 501: what is asked for isn't offered.
    NotImplemented,
    /// 502: the fault is the origin's.
    BadGateway,
    /// 503: the program has no memory now.
    ServiceUnavailable,
    /// 507: the disk doesn't take more (RFC 4918, section 11.5).
    InsufficientStorage,
}

impl Status {
    /// The number.
    #[tactic(auto, unfolding(crate::specs::Statuses::status_code))]
    pub fn code(self) -> u16
        ensures { result ≡ status_code self }
    {
        match self {
            Status::Ok => 200,
            Status::Found => 302,
            Status::BadRequest => 400,
            Status::NotFound => 404,
            Status::MethodNotAllowed => 405,
            Status::ContentTooLarge => 413,
            Status::HeadTooLarge => 431,
            Status::InternalServerError => 500,
            Status::NotImplemented => 501,
            Status::BadGateway => 502,
            Status::ServiceUnavailable => 503,
            Status::InsufficientStorage => 507,
        }
    }

    /// The reason phrase.
    #[tactic(auto, unfolding(crate::specs::Statuses::reason_phrase))]
    pub fn reason(self) -> &'static str
        ensures { result.now ≡ reason_phrase self }
    {
        match self {
            Status::Ok => "OK",
            Status::Found => "Found",
            Status::BadRequest => "Bad Request",
            Status::NotFound => "Not Found",
            Status::MethodNotAllowed => "Method Not Allowed",
            Status::ContentTooLarge => "Content Too Large",
            Status::HeadTooLarge => "Request Header Fields Too Large",
            Status::InternalServerError => "Internal Server Error",
            Status::NotImplemented => "Not Implemented",
            Status::BadGateway => "Bad Gateway",
            Status::ServiceUnavailable => "Service Unavailable",
            Status::InsufficientStorage => "Insufficient Storage",
        }
    }
}

/// Whether a response of this status has no body, and tells no length (RFC 9110, sections 6.4.1 and 8.6).
pub fn tells_no_length(status: u16) -> bool
    ensures { result ≡ spec.tells_no_length status }
{
    status == 204 || status == 304
}
