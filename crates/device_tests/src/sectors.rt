//! Sectors of a device without the contracts of its calls, which no test needs and which would
//! stand in each of its goals.

use sect_dev::{DevFault, SectorDev};

/// Sector n of a device, which has to have it.
pub fn sector_of(dev: &mut impl SectorDev, n: u32) -> Result<[u8; 512], DevFault> {
    if dev.capacity() <= n {
        return Err(DevFault);
    }
    let mut sector = [255; 512];
    dev.read(n, &mut sector)?;
    Ok(sector)
}

/// Writes sector n of a device, which has to have it.
pub fn set_sector(dev: &mut impl SectorDev, n: u32, sector: &[u8; 512]) -> Result<(), DevFault> {
    if dev.capacity() <= n {
        return Err(DevFault);
    }
    dev.write(n, sector)
}

/// Four sectors from sector n on of a device, which has to have them.
pub fn four_from(dev: &mut impl SectorDev, n: u32) -> Result<[u8; 2048], DevFault> {
    if dev.capacity().saturating_sub(n) < 4 {
        return Err(DevFault);
    }
    let mut run = [255; 2048];
    dev.read_run(n, &mut run)?;
    Ok(run)
}

/// Writes four sectors from sector n on of a device, which has to have them.
pub fn set_four(dev: &mut impl SectorDev, n: u32, run: &[u8; 2048]) -> Result<(), DevFault> {
    if dev.capacity().saturating_sub(n) < 4 {
        return Err(DevFault);
    }
    dev.write_run(n, run)
}

/// The first and the last byte of a sector.
pub fn ends(dev: &mut impl SectorDev, n: u32) -> Result<[u8; 2], DevFault> {
    let sector = sector_of(dev, n)?;
    Ok([sector[0], sector[511]])
}

/// The first bytes of sectors 0 and 1.
pub fn first_bytes(dev: &mut impl SectorDev) -> Result<[u8; 2], DevFault> {
    let zero = ends(dev, 0)?;
    let one = ends(dev, 1)?;
    Ok([zero[0], one[0]])
}
