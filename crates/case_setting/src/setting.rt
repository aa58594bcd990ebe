//! What one play of a case is given.
use case_language::{Line, Names, decode, number_of, numbers_of};
use case_steps::{Change, Deed, DiskSetting, FolderSetting, Step, Work};
use case_texts::Call;
use disk_model::MemoryDisk;
use std::alloc::{AllocError, Global};

/// The choice of a stop that leaves what reads give.
const READING: u32 = 1;

/// The namespace where a case names none.
const NAMESPACE: &str = "6ba7b810-9dad-11d1-80b4-00c04fd430c8";

/// What a case plays.
#[derive(Drop)]
pub enum Played<'a> {
    /// A run of the program.
    Program,
    /// A call of a single crate.
    Call(Call<'a>),
    /// The opening of the volumes, where so many captures are skipped behind the first warcinfo, if the case says so.
    Opening(Option<u32>),
    /// The steps of the journal of the volumes, behind which the files are shown.
    Files,
    /// The client's requests, which are read one after the other.
    Requests,
    /// The fetch of a response, for a client's request of this text.
    Fetch(Vec<u8>),
    /// The steps of an archive.
    Archive,
    /// A list of events over an archive.
    Events,
    /// The steps of an archive over a disk that gives another byte in one place.
    Altered(Change),
    /// Calls of the disk.
    Disk,
    /// The steps of an archive over a disk in a folder.
    Folder,
}

/// The numbers of the calls that are to fail, of each object.
#[derive(Drop)]
pub struct Fails {
    /// Those of each client.
    pub client: Vec<u64>,
    /// Those of the gate.
    pub gate: Vec<u64>,
    /// Which dials.
    pub dial: Vec<u64>,
    /// Those of each origin.
    pub origin: Vec<u64>,
    /// Those of the disk.
    pub disk: Vec<u64>,
    /// Those of what is printed on.
    pub sink: Vec<u64>,
}

/// The choices of the stops for each of which a case is played.
#[derive(Clone, Copy)]
pub struct Stops {
    /// The first choice.
    pub from: u32,
    /// The one behind the last.
    pub to: u32,
}

impl Stops {
    /// How many choices there are.
    pub fn turns(&self) -> u32 {
        self.to.saturating_sub(self.from)
    }

    /// The choice in this turn, from 0; the last one stays.
    pub fn at(&self, turn: u32) -> u32 {
        let last = self.to.saturating_sub(1);
        self.from.saturating_add(turn).min(last)
    }
}

/// The words, what client, origins and clock give, what stands on the disk, and which calls are to fail.
#[derive(Drop)]
pub struct Setting<'a> {
    /// What is played.
    pub played: Played<'a>,
    /// The words of a run.
    pub words: Vec<&'a str>,
    /// What the clock shows.
    pub clock: Vec<u64>,
    /// What the client of each connection gives.
    pub clients: Vec<Vec<u8>>,
    /// What the origin of each dial gives.
    pub origins: Vec<Vec<u8>>,
    /// How many bytes a call of a link moves at most.
    pub pieces: usize,
    /// How many bytes of its text each client gives.
    pub client_front: usize,
    /// How many each origin gives.
    pub origin_front: usize,
    /// The volumes that stand on the disk.
    pub volumes: Vec<Vec<u8>>,
    /// The checkpoints that stand there, of the first volumes.
    pub checkpoints: Vec<Vec<u8>>,
    /// What is done to the journal of the volumes before they are opened again.
    pub steps: Vec<Step>,
    /// What is done with an archive, or with the disk.
    pub deeds: Vec<Deed<'a>>,
    /// What the stop behind all that chooses: what reads give, where a case says nothing.
    pub stops: Stops,
    /// Which calls are to fail.
    pub fails: Fails,
    /// How many calls of the disk pass before each of them fails.
    pub disk_fuse: Option<u64>,
    /// Whether a file whose making is to fail is half made.
    pub disk_half_makes: bool,
}

impl<'a> Setting<'a> {
    /// The words are those of `pipe` with a namespace, nothing is given, and nothing fails.
    pub fn new(alloc: Global) -> Result<Setting<'a>, AllocError> {
        let mut words = Vec::new(alloc);
        words.push("pipe")?;
        words.push(NAMESPACE)?;
        Ok(Setting {
            played: Played::Program,
            words,
            clock: Vec::new(alloc),
            clients: Vec::new(alloc),
            origins: Vec::new(alloc),
            pieces: usize::MAX,
            client_front: usize::MAX,
            origin_front: usize::MAX,
            volumes: Vec::new(alloc),
            checkpoints: Vec::new(alloc),
            steps: Vec::new(alloc),
            deeds: Vec::new(alloc),
            stops: Stops {
                from: READING,
                to: READING + 1,
            },
            fails: Fails {
                client: Vec::new(alloc),
                gate: Vec::new(alloc),
                dial: Vec::new(alloc),
                origin: Vec::new(alloc),
                disk: Vec::new(alloc),
                sink: Vec::new(alloc),
            },
            disk_fuse: None,
            disk_half_makes: false,
        })
    }

    /// What stands on the disk, and which of its calls are to fail.
    pub fn disk(&self) -> DiskSetting<'_> {
        DiskSetting {
            volumes: self.volumes.as_slice(),
            checkpoints: self.checkpoints.as_slice(),
            fails: self.fails.disk.as_slice(),
            fuse: self.disk_fuse,
            half_makes: self.disk_half_makes,
        }
    }

    /// Which calls of the file system are to fail, where the disk is in a folder.
    pub fn folder(&self) -> FolderSetting<'_> {
        FolderSetting {
            fails: self.fails.disk.as_slice(),
            fuse: self.disk_fuse,
            in_part: self.disk_half_makes,
        }
    }

    /// Whether this is a run over a disk that is there, of which no call is to fail by its number.
    pub fn goes_on(&self) -> bool {
        match self.played {
            Played::Program => {
                self.volumes.is_empty() && self.checkpoints.is_empty() && self.fails.disk.is_empty()
            }
            _ => false,
        }
    }

    /// The disk that a further run is given, of which so many calls pass as the case says.
    pub fn fused(&self, disk: MemoryDisk) -> MemoryDisk {
        match self.disk_fuse {
            Some(calls) => disk.fused(calls),
            None => disk,
        }
    }

    /// Takes a line of a case, and says whether it is one.
    pub fn take(
        &mut self,
        alloc: Global,
        line: Line<'a>,
        names: Names,
    ) -> Result<bool, AllocError> {
        match line.word {
            "words" => {
                self.words = line.rest.split_whitespace().collect(alloc)?;
                Ok(true)
            }
            "client" => push_text(alloc, &mut self.clients, line.rest, names),
            "origin" => push_text(alloc, &mut self.origins, line.rest, names),
            "volume" => push_text(alloc, &mut self.volumes, line.rest, names),
            "checkpoint" => push_text(alloc, &mut self.checkpoints, line.rest, names),
            "pieces" => Ok(take_length(&mut self.pieces, line.rest, names.k)),
            "client-front" => Ok(take_length(&mut self.client_front, line.rest, names.k)),
            "origin-front" => Ok(take_length(&mut self.origin_front, line.rest, names.k)),
            "stop" => Ok(self.take_stop(line.rest, names.k)),
            "stops" => Ok(self.take_stops(line.rest, names.k)),
            "disk-fuse" => Ok(self.take_fuse(line.rest, names.k)),
            _ => self.take_played(alloc, line, names),
        }
    }

    /// Takes a line that says what is played.
    fn take_played(
        &mut self,
        alloc: Global,
        line: Line<'a>,
        names: Names,
    ) -> Result<bool, AllocError> {
        match line.word {
            "call" => self.take_call(alloc, Line::of(line.rest), names),
            "fetch" => self.take_fetch(alloc, line.rest, names),
            "open-skipping" => Ok(self.take_skip(line.rest, names.k)),
            "disk-half-makes" => {
                self.disk_half_makes = true;
                Ok(true)
            }
            "altered" => self.take_change(alloc, line.rest, names.k),
            "do" => self.take_deed(alloc, Line::of(line.rest), names, false),
            _ => match played_by(line.word) {
                Some(played) => Ok(self.plays(played)),
                None => self.take_step(alloc, line, names),
            },
        }
    }

    /// Plays this.
    fn plays(&mut self, played: Played<'a>) -> bool {
        self.played = played;
        true
    }

    fn take_call(
        &mut self,
        alloc: Global,
        line: Line<'a>,
        names: Names,
    ) -> Result<bool, AllocError> {
        let Some(text) = decode(alloc, line.rest, names)? else {
            return Ok(false);
        };
        Ok(self.plays(Played::Call(Call {
            name: line.word,
            text,
        })))
    }

    fn take_fetch(&mut self, alloc: Global, text: &str, names: Names) -> Result<bool, AllocError> {
        let Some(text) = decode(alloc, text, names)? else {
            return Ok(false);
        };
        Ok(self.plays(Played::Fetch(text)))
    }

    fn take_skip(&mut self, text: &str, k: u64) -> bool {
        match small_of(text, k) {
            Some(captures) => self.plays(Played::Opening(Some(captures))),
            None => false,
        }
    }

    /// Takes a file's number, a place in it, and the byte that a read gives there.
    fn take_change(&mut self, alloc: Global, text: &str, k: u64) -> Result<bool, AllocError> {
        let Some(numbers) = numbers_of(alloc, text, k)? else {
            return Ok(false);
        };
        match change_of(numbers.as_slice()) {
            Some(change) => Ok(self.plays(Played::Altered(change))),
            None => Ok(false),
        }
    }

    /// Takes a step of an archive or of the disk.
    fn take_deed(
        &mut self,
        alloc: Global,
        line: Line<'a>,
        names: Names,
        again: bool,
    ) -> Result<bool, AllocError> {
        let Some(text) = decode(alloc, line.rest, names)? else {
            return Ok(false);
        };
        self.deeds.push(Deed {
            name: line.word,
            text,
            again,
        })?;
        Ok(true)
    }

    /// Takes a step of the journal. Behind `again` stands one that is done only where the one before it was refused.
    fn take_step(
        &mut self,
        alloc: Global,
        line: Line<'a>,
        names: Names,
    ) -> Result<bool, AllocError> {
        let again = line.word == "again";
        let step = if again { Line::of(line.rest) } else { line };
        if again && step.word == "do" {
            return self.take_deed(alloc, Line::of(step.rest), names, true);
        }
        let is_step = matches!(step.word, "append" | "roll" | "repair" | "group");
        if !is_step {
            return self.take_numbers(alloc, line, names.k);
        }
        let Some(text) = decode(alloc, step.rest, names)? else {
            return Ok(false);
        };
        self.steps.push(Step {
            work: work_of(step.word, text),
            again,
        })?;
        Ok(true)
    }

    fn take_numbers(&mut self, alloc: Global, line: Line<'a>, k: u64) -> Result<bool, AllocError> {
        let Some(numbers) = numbers_of(alloc, line.rest, k)? else {
            return Ok(false);
        };
        match line.word {
            "clock" => self.clock = numbers,
            "client-fails" => self.fails.client = numbers,
            "gate-fails" => self.fails.gate = numbers,
            "dial-fails" => self.fails.dial = numbers,
            "origin-fails" => self.fails.origin = numbers,
            "disk-fails" => self.fails.disk = numbers,
            "sink-fails" => self.fails.sink = numbers,
            _ => return Ok(false),
        }
        Ok(true)
    }

    fn take_stop(&mut self, text: &str, k: u64) -> bool {
        match small_of(text, k) {
            Some(choice) => {
                self.stops = Stops {
                    from: choice,
                    to: choice.saturating_add(1),
                };
                true
            }
            None => false,
        }
    }

    /// Takes the choices from the first number to before the second.
    fn take_stops(&mut self, text: &str, k: u64) -> bool {
        let Some((from, to)) = text.split_once(' ') else {
            return false;
        };
        match (small_of(from, k), small_of(to, k)) {
            (Some(from), Some(to)) => {
                self.stops = Stops { from, to };
                from < to
            }
            _ => false,
        }
    }

    fn take_fuse(&mut self, text: &str, k: u64) -> bool {
        self.disk_fuse = number_of(text, k);
        self.disk_fuse.is_some()
    }
}

/// What is played, by a word that stands alone. `None` where it is none.
fn played_by<'a>(word: &str) -> Option<Played<'a>> {
    match word {
        "open" => Some(Played::Opening(None)),
        "files" => Some(Played::Files),
        "receive" => Some(Played::Requests),
        "archive" => Some(Played::Archive),
        "events" => Some(Played::Events),
        "disk" => Some(Played::Disk),
        "folder" => Some(Played::Folder),
        _ => None,
    }
}

/// What a step of the journal does, by its word, with this text.
fn work_of(word: &str, text: Vec<u8>) -> Work {
    match word {
        "append" => Work::Append(text),
        "roll" => Work::Roll(text),
        "group" => Work::Group(text),
        _ => Work::Repair,
    }
}

fn take_length(length: &mut usize, text: &str, k: u64) -> bool {
    match number_of(text, k) {
        Some(number) => {
            *length = number as usize;
            true
        }
        None => false,
    }
}

/// A file, a place and a byte, and how many reads of it give what was written.
fn change_of(numbers: &[u64]) -> Option<Change> {
    let (place, kept) = numbers.split_at_checked(3)?;
    match place {
        [file, place, byte] => Some(Change {
            file: u32::try_from(*file).ok()?,
            place: *place,
            byte: u8::try_from(*byte).ok()?,
            kept_reads: kept.first().copied().unwrap_or(0),
        }),
        _ => None,
    }
}

/// A number below 2^32.
fn small_of(text: &str, k: u64) -> Option<u32> {
    u32::try_from(number_of(text, k)?).ok()
}

fn push_text(
    alloc: Global,
    texts: &mut Vec<Vec<u8>>,
    text: &str,
    names: Names,
) -> Result<bool, AllocError> {
    match decode(alloc, text, names)? {
        Some(bytes) => {
            texts.push(bytes)?;
            Ok(true)
        }
        None => Ok(false),
    }
}
