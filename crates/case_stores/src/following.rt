//! A step that takes the piece of another archive's capture.
use archive_core::Archive;
use archive_pieces::PieceFault;
use archive_taking::take_piece;
use capture::Memory;
use case_captures::damage_text;
use disk_model::Disk;
use std::alloc::Global;

/// `taken` and the capture's number; or the fault.
pub fn piece_taken<D: Disk>(
    alloc: Global,
    archive: &mut Archive<D>,
    piece: &[u8],
) -> Result<String, Memory> {
    match take_piece(alloc, archive, piece) {
        Ok(number) => Ok(format!(in alloc; "taken {number}")?),
        Err(fault) => fault_text(alloc, fault),
    }
}

fn fault_text(alloc: Global, fault: PieceFault) -> Result<String, Memory> {
    match fault {
        PieceFault::Full { count, limit } => Ok(format!(in alloc; "Full {count} {limit}")?),
        PieceFault::NotAPiece => Ok(String::from_str(alloc, "NotAPiece")?),
        PieceFault::DiskFault => Ok(String::from_str(alloc, "DiskFault")?),
        PieceFault::Damaged {
            number,
            kept,
            found,
        } => damage_text(alloc, number, &kept, found),
        PieceFault::Memory => Err(Memory),
    }
}
