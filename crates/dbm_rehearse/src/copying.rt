// A device in memory with the bytes of a file.
ghost use Rattle.std.specs.Prelude.{◌≡◌, ◌⊎◌, ◌<◌, ◌≤◌, ◌*◌, ℕ, IfOk, length};
ghost use Rattle.sect_dev.specs.History.{pending_of};
ghost use Rattle.sect_dev.specs.Mem.{history};
ghost use Rattle.dbm_rehearse.specs.Copies.{sector_in};

use sect_dev::{MemDev, SectorDev};
use std::alloc::{AllocError, Global};

const SECTOR: usize = 512;

/// A device of so many sectors with these bytes from its first sector on, and zeros behind them,
/// all of it on the disk. Bytes that it has no room for are left out.
pub fn device_with(alloc: Global, sectors: u32, bytes: &[u8]) -> Result<MemDev, AllocError>
    ensures holds { IfOk result (λ dev. (n : ℕ) → n < sectors
        → ⟦<MemDev as SectorDev>⟧.seen dev n ≡ sector_in bytes.now n) }
    ensures settled { IfOk result (λ dev. pending_of (history dev) ≡ 0) }
    ensures size { IfOk result (λ dev. ⟦<MemDev as SectorDev>⟧.sectors dev ≡ sectors) }
{
    let mut dev = MemDev::new(alloc, sectors);
    for n in 0..sectors_with(bytes, sectors) {
        dev.write(n, &sector_of(bytes, n)).map_err(|_| AllocError)?;
    }
    dev.sync().map_err(|_| AllocError)?;
    Ok(dev)
}

// How many sectors the bytes take, or as many as there are.
fn sectors_with(bytes: &[u8], sectors: u32) -> u32
    ensures fits { result ≤ sectors }
    ensures all { (length bytes.now ≤ 512 * result) ⊎ (result ≡ sectors) }
{
    match u32::try_from(bytes.len().div_ceil(SECTOR)) {
        Ok(needed) if needed < sectors => needed,
        _ => sectors,
    }
}

// Sector n of the bytes, with zeros behind their end.
fn sector_of(bytes: &[u8], n: u32) -> [u8; SECTOR]
    ensures { result ≡ sector_in bytes.now n }
{
    let begin = (n as usize * SECTOR).min(bytes.len());
    let rest = &bytes[begin..];
    let filled = SECTOR.min(rest.len());
    let mut sector = [0; SECTOR];
    sector[..filled].copy_from_slice(&rest[..filled]);
    sector
}
