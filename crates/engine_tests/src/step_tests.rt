//! Which steps the engines tell, and when what is shown has to go.

use crate::engines::{self, new_db};
use dbm_fault::EngineFault;
use dbm_progress::{Progress, Work};
use std::alloc::Global;
use std::test::Fail;

/// Keeps a letter for each step, and `x` for each time that nothing is to be shown.
#[derive(Drop)]
struct Recorder {
    told: Vec<u8>,
}

impl Recorder {
    /// Keeps a letter.
    fn keep(&mut self, letter: u8) {
        let _ = self.told.push(letter);
    }
}

impl Progress for Recorder {
    fn step(&mut self, work: Work) {
        self.keep(match work {
            Work::LinesLoaded => b'l',
            Work::KeysRead => b'k',
            Work::PairsRead => b'p',
            Work::KeysWritten => b'K',
            Work::PairsWritten => b'P',
            Work::StopsMade => b's',
            Work::BucketsVerified => b'b',
        });
    }

    fn clear(&mut self) {
        self.keep(b'x');
    }
}

/// What a load of three lines, of which the last one is bad, a dump and a list tell, where so many
/// lines may share a commit.
fn told(alloc: Global, group: u32) -> Result<Vec<u8>, Fail> {
    let mut db = new_db(alloc, 100)?;
    let mut recorder = Recorder {
        told: Vec::new(alloc),
    };
    let mut text: &[u8] = b"62 .\n61 01\nQ\n";
    let loaded = engines::load(alloc, &mut db, &mut text, group, &mut recorder);
    if loaded != Err(EngineFault::Line(3)) {
        return Err(Fail::new("the third line is loaded"));
    }
    let mut written: Vec<u8> = Vec::new(alloc);
    recorder.keep(b' ');
    engines::dump(alloc, &mut db, &mut written, &mut recorder)?;
    recorder.keep(b' ');
    engines::list(alloc, &mut db, &mut written, &mut recorder)?;
    Ok(recorder.told)
}

#[test]
fn a_step_is_told_once_it_is_done(rt: HostRuntime) -> Result<(), Fail> {
    for group in 0..5 {
        assert_eq!(rt;
            told(rt.alloc(), group)?.as_slice(),
            b"ll ppxPP kkxKK".as_slice(),
            "in groups of {group}"
        );
    }
    Ok(())
}
