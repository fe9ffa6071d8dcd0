//! A store over a device that somebody else serves.

use super::Pager;
use page_io::ServedStore;
use sect_dev::{ServedDev, Told};
use std::alloc::AllocError;

impl<D: ServedDev> ServedStore for Pager<D> {
    ghost shows = { λ p. D.seen p.dev };

    ghost listed = { λ p. D.listed p.dev };

    fn tell(&mut self, told: &Told) -> Result<(), AllocError> {
        self.dev.tell(told)
    }
}
