//! A call of a disk, as a step of a case names it.
use case_language::{TextWords, number_in};
use disk_model::Kind;

/// A call of a disk and what it is given, or what is done with the disk between two calls.
#[derive(Clone, Copy)]
pub enum Call<'a> {
    Files(Kind),
    Create(Kind),
    /// A file is made, written and synced.
    Put(Kind, &'a [u8]),
    Len(Kind, u32),
    Sync(Kind, u32),
    Cut(Kind, u32, u64),
    /// So many bytes from a place on.
    Read(Kind, u32, u64, u64),
    Write(Kind, u32, u64, &'a [u8]),
    /// Each byte is written by a call of its own.
    WriteEach(Kind, u32, u64, &'a [u8]),
    /// The checkpoint of a volume is read.
    ReadCheckpoint(u32),
    /// The checkpoint of a volume is written, which has this text.
    WriteCheckpoint(u32, &'a [u8]),
    /// The checkpoints of volumes that aren't sealed are taken away.
    ClearUnsealed,
    /// A volume is checked.
    Verify(Due<'a>),
    /// The counts of the disk are told.
    Counts,
    /// So many further calls pass, and each behind them fails.
    Fuse(u64),
    /// Each `create` that is to fail from then on leaves its file half made.
    HalfMake,
    /// The disk stops by a choice, or by the case's own.
    Stop(Option<u32>),
}

/// What is due in a volume that is checked.
#[derive(Clone, Copy)]
pub struct Due<'a> {
    /// How many workers read it.
    pub workers: u32,
    pub volume: u32,
    /// The number of its first capture, and how many it has.
    pub first: u32,
    pub count: u32,
    pub last: bool,
    /// The namespace, as an id is written.
    pub namespace: &'a [u8],
}

impl<'a> Call<'a> {
    /// The call of that name. `None` where there is none, or it isn't given what it takes.
    pub fn of(name: &str, text: &'a [u8]) -> Option<Call<'a>> {
        match name {
            "files" => Some(Call::Files(kind_in(text)?)),
            "create" => Some(Call::Create(kind_in(text)?)),
            "clear-unsealed" => Some(Call::ClearUnsealed),
            "counts" => Some(Call::Counts),
            "fuse" => Some(Call::Fuse(number_in(text)?)),
            "half-make" => Some(Call::HalfMake),
            "stop" => stop_in(text),
            "read-checkpoint" => Some(Call::ReadCheckpoint(small_in(text)?)),
            "write-checkpoint" => checkpoint_in(text),
            "verify" => Some(Call::Verify(due_in(text, false)?)),
            "verify-last" => Some(Call::Verify(due_in(text, true)?)),
            _ => call_of_file(name, text),
        }
    }
}

/// A checkpoint that is written: the number of its volume, and its text.
fn checkpoint_in<'a>(text: &'a [u8]) -> Option<Call<'a>> {
    let mut words = TextWords::of(text);
    match words.small_number() {
        Some(volume) => Some(Call::WriteCheckpoint(volume, words.rest)),
        None => None,
    }
}

/// What is due in a volume, the last one or another: the text is `WORKERS VOLUME FIRST COUNT NAMESPACE`.
fn due_in<'a>(text: &'a [u8], last: bool) -> Option<Due<'a>> {
    let mut words = TextWords::of(text);
    Some(Due {
        workers: words.small_number()?,
        volume: words.small_number()?,
        first: words.small_number()?,
        count: words.small_number()?,
        last,
        namespace: words.rest,
    })
}

/// A call of a file, or a file that is put.
fn call_of_file<'a>(name: &str, text: &'a [u8]) -> Option<Call<'a>> {
    let mut words = TextWords::of(text);
    let kind = kind_in(words.bytes()?)?;
    match name {
        "put" => Some(Call::Put(kind, words.rest)),
        "len" => Some(Call::Len(kind, small_in(words.rest)?)),
        "sync" => Some(Call::Sync(kind, small_in(words.rest)?)),
        _ => call_at(name, kind, words.rest),
    }
}

/// A call of a place in a file.
fn call_at<'a>(name: &str, kind: Kind, text: &'a [u8]) -> Option<Call<'a>> {
    let mut words = TextWords::of(text);
    let file = words.small_number()?;
    if name == "cut" {
        return Some(Call::Cut(kind, file, number_in(words.rest)?));
    }
    let at = words.number()?;
    match name {
        "read" => Some(Call::Read(kind, file, at, number_in(words.rest)?)),
        "write" => Some(Call::Write(kind, file, at, words.rest)),
        "write-each" => Some(Call::WriteEach(kind, file, at, words.rest)),
        _ => None,
    }
}

/// A stop by the choice in the text, or by the case's own.
fn stop_in<'a>(text: &[u8]) -> Option<Call<'a>> {
    if text.is_empty() {
        return Some(Call::Stop(None));
    }
    Some(Call::Stop(Some(small_in(text)?)))
}

/// The name of volumes.
const WARC: &[u8] = b"warc";

/// The name of checkpoints.
const CDXJ: &[u8] = b"cdxj";

/// The kind of that name.
fn kind_in(text: &[u8]) -> Option<Kind> {
    if text == WARC {
        return Some(Kind::Warc);
    }
    if text == CDXJ {
        return Some(Kind::Cdxj);
    }
    None
}

/// A number below 2^32.
fn small_in(text: &[u8]) -> Option<u32> {
    u32::try_from(number_in(text)?).ok()
}
