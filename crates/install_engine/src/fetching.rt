//! The fetch of a payload.
ghost use Rattle.std.specs.Prelude.{◌≡◌, ◌≢◌, ◌+◌, ◌*◌, ◌<◌, ◌≤◌, length, take, OnOk, OnErr, IfOk, IfSome, IfNone, Some};
ghost use Rattle.sha2.specs.Sha256.{sha256};
ghost use Rattle.outer_traits.specs.Faults.{Rose};
ghost use Rattle.outer_traits.specs.Shelves.{file_of, bytes_of, StandsAt};
ghost use Rattle.daemon_core.specs.Fetches.{block_count};
ghost use Rattle.install_engine.specs.Answers.{told, IfWhole, IfLength, IfMismatch};
ghost use Rattle.install_engine.specs.Findings.{found_of};

use block_pool::{BLOCK_BYTES, BadBlocks, Blocks};
use daemon_core::{Fetched, Hold, Ticket};
use fw_base::Digest;
use outer_traits::{Failed, Shelf};

/// Fetches the payload of a hold from a shelf into the hold's blocks. The ticket is the hold's.
pub fn fetch<P: Shelf>(shelf: &mut P, hold: Hold) -> (Ticket, Fetched)
    requires { hold.size ≤ 4096 * hold.blocks.count }
    ensures ticket { result.0 ≡ hold.ticket }
    ensures found { IfSome (P.files shelf.old) (λ all. IfSome (told result.1) (λ found. found ≡ found_of (file_of all hold.digest) hold.digest hold.size)) }
    ensures bytes { IfSome (P.files shelf.old) (λ all. IfWhole result.1 (λ payload. file_of all hold.digest ≡ Some payload.bytes)) }

    // These hold also where the shelf tells nothing.
    ensures digest { IfWhole result.1 (λ payload. payload.digest ≡ hold.digest) }
    ensures size { IfWhole result.1 (λ payload. length payload.bytes ≡ hold.size) }
    ensures other_length { IfLength result.1 (λ found. found ≢ hold.size) }
    ensures other_digest { IfMismatch result.1 (λ found _. found ≢ hold.digest) }
    ensures hashed { IfMismatch result.1 (λ found blocks. found ≡ sha256 (take hold.size blocks.bytes)) }

    ensures blocks { block_count result.1 ≡ hold.blocks.count }
    ensures cause { IfNone (told result.1) (Rose (P.faults shelf.old) (P.faults shelf.new)) }
    ensures quiet { IfSome (told result.1) (λ _. P.faults shelf.new ≡ P.faults shelf.old) }
    ensures unchanged { P.files shelf.new ≡ P.files shelf.old }
    ensures counts { P.faults shelf.old ≤ P.faults shelf.new }
{
    let Hold {
        ticket,
        blocks,
        digest,
        size,
    } = hold;
    let fetched = fetch_blocks(shelf, &digest, size, blocks);
    (ticket, fetched)
}

/// Fetches the payload with this SHA-256 and this size in bytes from a shelf into blocks.
///
/// The length is asked for first, so that a file of another length is not read. A shelf of which
/// fewer bytes come than it had said gives `Length` with the bytes that came.
pub fn fetch_blocks<P: Shelf>(
    shelf: &mut P,
    name: &Digest,
    size: u32,
    mut blocks: Blocks,
) -> Fetched
    requires { size ≤ 4096 * blocks.count }
    ensures found { IfSome (P.files shelf.old) (λ all. IfSome (told result) (λ found. found ≡ found_of (file_of all name.now) name.now size)) }
    ensures bytes { IfSome (P.files shelf.old) (λ all. IfWhole result (λ payload. file_of all name.now ≡ Some payload.bytes)) }

    // These hold also where the shelf tells nothing.
    ensures digest { IfWhole result (λ payload. payload.digest ≡ name.now) }
    ensures size { IfWhole result (λ payload. length payload.bytes ≡ size) }
    ensures other_length { IfLength result (λ found. found ≢ size) }
    ensures other_digest { IfMismatch result (λ found _. found ≢ name.now) }
    ensures hashed { IfMismatch result (λ found blocks. found ≡ sha256 (take size blocks.bytes)) }

    ensures blocks { block_count result ≡ blocks.count }
    ensures cause { IfNone (told result) (Rose (P.faults shelf.old) (P.faults shelf.new)) }
    ensures quiet { IfSome (told result) (λ _. P.faults shelf.new ≡ P.faults shelf.old) }
    ensures unchanged { P.files shelf.new ≡ P.files shelf.old }
    ensures counts { P.faults shelf.old ≤ P.faults shelf.new }
{
    let length = match shelf.length(name) {
        Err(Failed) => return Fetched::ShelfFault(blocks),
        Ok(None) => return Fetched::Missing(blocks),
        Ok(Some(length)) => length,
    };
    if length != u64::from(size) {
        return Fetched::Length {
            found: length,
            blocks,
        };
    }
    let came = match read_front(shelf, name, size, &mut blocks) {
        Err(Failed) => return Fetched::ShelfFault(blocks),
        Ok(came) => came,
    };
    if came < size {
        return Fetched::Length {
            found: u64::from(came),
            blocks,
        };
    }
    match blocks.seal(size, name) {
        Ok(payload) => Fetched::Whole(payload),
        Err(bad) => {
            let found = bad.found;
            let BadBlocks { found: _, blocks } = bad;
            Fetched::Mismatch { found, blocks }
        }
    }
}

// Reads a file from its beginning into blocks, until `size` bytes came or a read gave none. Says how
// many came.
fn read_front<P: Shelf>(
    shelf: &mut P,
    name: &Digest,
    size: u32,
    blocks: &mut Blocks,
) -> Result<u32, Failed>
    requires { size ≤ 4096 * blocks.old.count }
    ensures within { IfOk result (λ came. came ≤ size) }
    ensures front { IfOk result (λ came. IfSome (P.files shelf.old) (λ all. StandsAt (bytes_of all name.now) 0 (take came blocks.new.bytes))) }
    ensures ended { IfOk result (λ came. came < size → IfSome (P.files shelf.old) (λ all. length (bytes_of all name.now) ≤ came)) }
    ensures count { blocks.new.count ≡ blocks.old.count }
    ensures cause { OnErr result (Rose (P.faults shelf.old) (P.faults shelf.new)) }
    ensures quiet { OnOk result (P.faults shelf.new ≡ P.faults shelf.old) }
    ensures unchanged { P.files shelf.new ≡ P.files shelf.old }
    ensures counts { P.faults shelf.old ≤ P.faults shelf.new }
{
    let mut came = 0;
    'pieces: while came < size {
        let more = read_piece(shelf, name, came, size - came, blocks)?;
        if more == 0 {
            return Ok(came);
        }
        came += more;
    }
    Ok(came)
}

// Reads up to `most` bytes from a place on, and at most a block of them. Says how many came.
fn read_piece<P: Shelf>(
    shelf: &mut P,
    name: &Digest,
    at: u32,
    most: u32,
    blocks: &mut Blocks,
) -> Result<u32, Failed>
    requires { at + most ≤ 4096 * blocks.old.count }
    ensures within { IfOk result (λ more. more ≤ most) }
    ensures longer { IfOk result (λ more. IfSome (P.files shelf.old) (λ all. StandsAt (bytes_of all name.now) 0 (take at blocks.old.bytes) → StandsAt (bytes_of all name.now) 0 (take (at + more) blocks.new.bytes))) }
    ensures ended { IfOk result (λ more. more ≡ 0 → 0 < most → IfSome (P.files shelf.old) (λ all. length (bytes_of all name.now) ≤ at)) }
    ensures count { blocks.new.count ≡ blocks.old.count }
    ensures cause { OnErr result (Rose (P.faults shelf.old) (P.faults shelf.new)) }
    ensures quiet { OnOk result (P.faults shelf.new ≡ P.faults shelf.old) }
    ensures unchanged { P.files shelf.new ≡ P.files shelf.old }
    ensures counts { P.faults shelf.old ≤ P.faults shelf.new }
{
    let mut buffer = [0; BLOCK_BYTES];
    let piece = &mut buffer[..BLOCK_BYTES.min(most as usize)];
    let more = shelf.read(name, u64::from(at), piece)?;
    blocks.fill(at, &piece[..more]);
    Ok(more as u32)
}
