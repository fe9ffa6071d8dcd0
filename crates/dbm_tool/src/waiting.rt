// What is begun on a file, as an opening, and waits where another program has it open.
ghost use Rattle.std.specs.Prelude.{◌*◌, ◌↔◌, IsTrue};
ghost use Rattle.dbm_tool.specs.Waiting.{EndsWaiting, IsLocked};

use dbm_file::Refusal;
use std::io::ErrorKind;
use std::thread;
use std::time::{Clock, Duration};

/// How often an opening is tried again in a second.
const TRIES_A_SECOND: u64 = 10;

/// How long an opening is waited with, in milliseconds.
const PAUSE: u64 = 100;

/// Opens a file by `opening`, which is tried again, ten times a second and for so many seconds, while
/// another program has the file open. Of no seconds it is tried once.
pub fn open_waiting<T, C: Clock, F: Fn() -> Result<T, Refusal>>(
    clock: &C,
    seconds: u32,
    opening: F,
) -> Result<T, Refusal>
    requires { F.IsAlwaysCallable opening }
    ensures { EndsWaiting (F.post opening) (seconds * 10) result }
{
    for _again in 0..u64::from(seconds) * TRIES_A_SECOND {
        match opening() {
            Err(refusal) if is_locked(refusal) => {
                thread::sleep(clock, Duration::from_millis(PAUSE));
            }
            ended => return ended,
        }
    }
    opening()
}

/// Whether an opening was refused since another program has the file open.
fn is_locked(refusal: Refusal) -> bool
    ensures { IsTrue result ↔ IsLocked refusal }
{
    match refusal.system {
        Some(error) => error.kind() == ErrorKind::WouldBlock,
        None => false,
    }
}
