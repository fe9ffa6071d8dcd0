//! A device that lists its changes.
ghost use Rattle.std.specs.Prelude.{◌≡◌, []};
ghost use Rattle.listed_dev.specs.Listed.{history};

use crate::sectors::{sector_of, set_sector};
use listed_dev::ListedDev;
use sect_dev::{Event, Past, SectorDev, ServedDev, Told};
use std::test::Fail;

/// Whether a read of the sector fails, and names it.
fn lacks(dev: &mut ListedDev, n: u32) -> bool
    ensures { history dev.new ≡ history dev.old }
{
    n < dev.capacity() && dev.read(n, &mut [0; 512]).is_err() && dev.lacked() == Some(n)
}

/// Tells a device over a blank file that this sector has zeros.
#[tactic(auto, unfolding(sect_dev::specs::Sector::zeros))]
fn is_told_of_zeros(dev: &mut ListedDev, n: u32) -> bool
    requires { history dev.old ≡ [] }
{
    dev.tell(&Told::Sector(n, [0; 512])).is_ok() && dev.lacked().is_none()
}

#[test]
fn a_sector_is_read_once_it_is_told(rt: HostRuntime) -> Result<(), Fail> {
    let mut dev = ListedDev::new(rt.alloc(), Past::none(), 16);
    assert!(rt; lacks(&mut dev, 2));
    assert!(rt; is_told_of_zeros(&mut dev, 2));
    assert!(rt; sector_of(&mut dev, 2)? == [0; 512] && lacks(&mut dev, 3));
    Ok(())
}

/// Whether a write of sector 5 and a sync are listed, in their order.
fn lists_both(dev: &ListedDev) -> bool {
    match dev.listed() {
        [Event::Wrote(n, content), Event::Synced] => *n == 5 && *content == [7; 512],
        _ => false,
    }
}

#[test]
fn changes_are_listed_until_they_are_carried_out(rt: HostRuntime) -> Result<(), Fail> {
    let mut dev = ListedDev::new(rt.alloc(), Past::none(), 16);
    set_sector(&mut dev, 5, &[7; 512])?;
    dev.sync()?;
    assert!(rt; lists_both(&dev) && sector_of(&mut dev, 5)? == [7; 512]);
    dev.tell(&Told::CarriedOut)?;
    assert!(rt; dev.listed().is_empty() && lacks(&mut dev, 5));
    Ok(())
}
