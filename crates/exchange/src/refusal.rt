//! What a refused request is answered.
ghost use Rattle.std.specs.Prelude.{◌≡◌, ◌+◌, ◌≤◌, ◌++◌, length, decimal};
ghost use Rattle.httparse.specs.Ascii.{crlf_bytes};
ghost use Rattle.head_lines.specs.Lines.{body_unless, close_line_where, head_end};
ghost use Rattle.head_lines.specs.Statuses.{reason_phrase};
ghost use Rattle.exchange.specs.Refusals as spec;

use arrayvec::ArrayString;
use capture::Refusal;
use head_lines::Status;
use itoa::Buffer;
use name_table::match_rows;
use std::marker::Model;

/// More than the longest answer.
const ROOM: usize = 256;

/// The whole answer to a request that is refused, which takes no memory. A contract sees the list of its bytes.
#[derive(Drop)]
pub struct RefusalText {
    text: ArrayString<ROOM>,
}

impl Model for RefusalText {
    ghost use Rattle.std.specs.Prelude.{List, ℕ};

    ghost Value = { List ℕ };

    ghost view = { λ t. t.text.bytes };
}

impl RefusalText {
    /// The bytes in place.
    pub fn as_slice(&self) -> &[u8]
        ensures { result.now ≡ self.now }
    {
        self.text.as_str().as_bytes()
    }
}

/// The answer where memory ran out. It takes none, and closes the connection.
#[tactic(auto, unfolding(crate::specs::Refusals::memory_text))]
pub fn memory_text() -> &'static [u8]
    ensures { result.now ≡ spec.memory_text }
{
    b"HTTP/1.1 503 Service Unavailable\r\nContent-Type: text/plain\r\nContent-Length: 7\r\nConnection: close\r\n\r\nMemory\n"
}

/// The answer to a request that is refused, after which the connection closes or not. One to HEAD has no body, and the
/// length that the body of an answer to GET has (RFC 9110, section 9.3.2).
#[tactic(auto, unfolding(crate::specs::Refusals::refusal_text))]
pub fn refusal_text(refusal: &Refusal, answers_head: bool, closes: bool) -> RefusalText
    ensures { result ≡ spec.refusal_text refusal.now answers_head closes }
{
    let body = body_of(refusal);
    let mut text = start_of(refusal);
    put_allow_line(&mut text, refusal);
    put_head_end(&mut text, body.len(), closes);
    put_body_unless(&mut text, answers_head, body.as_str());
    RefusalText { text }
}

/// The status line, and the type of what follows.
fn start_of(refusal: &Refusal) -> ArrayString<ROOM>
    ensures text { result.bytes ≡ spec.refusal_start refusal.now }
    ensures short { length result.bytes ≤ 89 }
{
    let status = status_of(refusal);
    let mut out = ArrayString::new();
    out.push_str("HTTP/1.1 ");
    put_number(&mut out, u64::from(status.code()));
    out.push_str(" ");
    out.push_str(reason_of(status));
    out.push_str("\r\nContent-Type: text/plain\r\n");
    out
}

/// Puts the methods that are served, where the method was refused (RFC 9110, section 10.2.1).
#[tactic(auto, unfolding(crate::specs::Refusals::allow_line))]
fn put_allow_line(out: &mut ArrayString<ROOM>, refusal: &Refusal)
    requires { length out.old.bytes ≤ 89 }
    ensures text { out.new.bytes ≡ out.old.bytes ++ spec.allow_line refusal.now }
    ensures short { length out.new.bytes ≤ 107 }
{
    match refusal {
        Refusal::MethodRefused => out.push_str("Allow: GET, HEAD\r\n"),
        _ => {}
    }
}

/// Puts what ends the head: the length of the body, whether the connection closes, and the empty line.
fn put_head_end(out: &mut ArrayString<ROOM>, len: usize, closes: bool)
    requires { length out.old.bytes ≤ 107 }
    ensures text { out.new.bytes ≡ out.old.bytes ++ head_end len closes }
    ensures short { length out.new.bytes ≤ 166 }
{
    out.push_str("Content-Length: ");
    put_number(out, len as u64);
    out.push_str(behind_length(closes));
}

/// What ends the head behind the length of the body.
fn behind_length(closes: bool) -> &'static str
    ensures value { result.now ≡ crlf_bytes ++ close_line_where closes ++ crlf_bytes }
    ensures short { length result.now ≤ 23 }
{
    if closes {
        return "\r\nConnection: close\r\n\r\n";
    }
    "\r\n\r\n"
}

/// Puts the body, which an answer to HEAD doesn't have.
fn put_body_unless(out: &mut ArrayString<ROOM>, answers_head: bool, body: &str)
    requires { length out.old.bytes + length body.now ≤ 256 }
    ensures { out.new.bytes ≡ out.old.bytes ++ body_unless answers_head body.now }
{
    if !answers_head {
        out.push_str(body);
    }
}

/// The word, the numbers and a line end.
#[tactic(auto, unfolding(crate::specs::Refusals::refusal_body))]
fn body_of(refusal: &Refusal) -> ArrayString<ROOM>
    ensures text { result.bytes ≡ spec.refusal_body refusal.now }
    ensures short { length result.bytes ≤ 60 }
{
    let mut body = ArrayString::new();
    body.push_str(name_of(refusal));
    put_numbers(&mut body, refusal);
    body.push_str("\n");
    body
}

/// Puts the numbers that the refusal names.
#[tactic(auto, unfolding(crate::specs::Refusals::refusal_numbers))]
fn put_numbers(out: &mut ArrayString<ROOM>, refusal: &Refusal)
    requires { length out.old.bytes ≤ 17 }
    ensures text { out.new.bytes ≡ out.old.bytes ++ spec.refusal_numbers refusal.now }
    ensures short { length out.new.bytes ≤ 59 }
{
    match *refusal {
        Refusal::NoSuch { number, count } => put_two(out, number, count),
        Refusal::ClockRange { now } => put_spaced(out, now),
        Refusal::Full { count, limit } => put_two(out, count, limit),
        Refusal::Damaged { number, .. } => put_spaced(out, u64::from(number)),
        _ => {}
    }
}

/// Puts two numbers, each behind a space.
fn put_two(out: &mut ArrayString<ROOM>, first: u32, second: u32)
    requires { length out.old.bytes ≤ 17 }
    ensures text { out.new.bytes ≡ out.old.bytes ++ (spec.spaced first ++ spec.spaced second) }
    ensures short { length out.new.bytes ≤ 59 }
{
    put_spaced(out, u64::from(first));
    put_spaced(out, u64::from(second));
}

/// Puts a number behind a space.
fn put_spaced(out: &mut ArrayString<ROOM>, number: u64)
    requires { length out.old.bytes ≤ 100 }
    ensures text { out.new.bytes ≡ out.old.bytes ++ spec.spaced number }
    ensures short { length out.new.bytes ≤ length out.old.bytes + 21 }
{
    out.push_str(" ");
    put_number(out, number);
}

/// Puts the number's decimal digits.
fn put_number(out: &mut ArrayString<ROOM>, number: u64)
    requires { length out.old.bytes ≤ 200 }
    ensures text { out.new.bytes ≡ out.old.bytes ++ decimal number }
    ensures short { length out.new.bytes ≤ length out.old.bytes + 20 }
{
    let mut buffer = Buffer::new();
    out.push_str(buffer.format(number));
}

/// The reason phrase, which is short.
fn reason_of(status: Status) -> &'static str
    ensures value { result.now ≡ reason_phrase status }
    ensures short { length result.now ≤ 31 }
{
    status.reason()
}

/// The status (RFC 9110, section 15).
#[tactic(auto, unfolding(crate::specs::Refusals::refusal_status))]
fn status_of(refusal: &Refusal) -> Status
    ensures { result ≡ spec.refusal_status refusal.now }
{
    match_rows!(refusal, Refusal;
        Malformed | TargetRefused | BadTime | BadAcceptDatetime | BadQuery => Status::BadRequest,
        NotAForm | NoCapture | NoSuch => Status::NotFound,
        MethodRefused => Status::MethodNotAllowed,
        BodyTooLong => Status::ContentTooLarge,
        HeadTooLong => Status::HeadTooLarge,
        ClockRange => Status::InternalServerError,
        ConnectRefused | SecureRefused | CodingRefused => Status::NotImplemented,
        DialFault | OriginFault | OriginEnded | OriginMalformed | OriginTooLong | TooManyInterim => Status::BadGateway,
        Full | DiskFault | Damaged => Status::InsufficientStorage,
    )
}

/// The refusal in a word.
#[tactic(auto, unfolding(crate::specs::Refusals::refusal_name))]
fn name_of(refusal: &Refusal) -> &'static str
    ensures value { result.now ≡ spec.refusal_name refusal.now }
    ensures short { length result.now ≤ 17 }
{
    match_rows!(refusal, Refusal;
        Malformed => "Malformed",
        TargetRefused => "TargetRefused",
        BadTime => "BadTime",
        BadAcceptDatetime => "BadAcceptDatetime",
        BadQuery => "BadQuery",
        NotAForm => "NotAForm",
        NoCapture => "NoCapture",
        NoSuch => "NoSuch",
        MethodRefused => "MethodRefused",
        BodyTooLong => "BodyTooLong",
        HeadTooLong => "HeadTooLong",
        ClockRange => "ClockRange",
        ConnectRefused => "ConnectRefused",
        SecureRefused => "SecureRefused",
        CodingRefused => "CodingRefused",
        DialFault => "DialFault",
        OriginFault => "OriginFault",
        OriginEnded => "OriginEnded",
        OriginMalformed => "OriginMalformed",
        OriginTooLong => "OriginTooLong",
        TooManyInterim => "TooManyInterim",
        Full => "Full",
        DiskFault => "DiskFault",
        Damaged => "Damaged",
    )
}
