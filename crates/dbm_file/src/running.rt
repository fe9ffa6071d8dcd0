// A list of calls, one after another.
ghost use Rattle.std.specs.Prelude.{◌≡◌, ◌<◌, ◌≤◌, ◌+◌, ◌∷◌, ℕ, List, All, IfOk, IfErr, IfSome, map, vec_len, length};
ghost use Rattle.dbm_file.specs.declared.calls.Call.{Call};
ghost use Rattle.dbm_file.specs.Calls.{call_of, reply_of};
ghost use Rattle.dbm_model.specs.Changes.{bounds_after};
ghost use Rattle.page_io.specs.Versions.{model_version};
ghost use Rattle.dbm_file.specs.Database.{meta_kept, AtEachHandle};
ghost use Rattle.dbm_file.specs.Answers.{IsStep, IsSameUnder};
ghost use Rattle.dbm_file.specs.Replies.{IsAnswered, AreAnswered, bounds_behind, told_of_store, told_of_delete, told_of_upgrade, told_of_bytes};
ghost use Rattle.dbm_file.specs.Rooms.{IsRoom, AreRooms, AreRoomsFor, longest_content};
ghost use Rattle.dbm_file.specs.Runs.{IsRun, IsMadeInSteps};

use crate::{Call, Database, DeleteReply, Fault, Octets, Reply, StoreReply, Version};
use page_io::PageStore;
use std::alloc::{AllocError, Global};

/// The most bytes that a key may have.
const LONGEST_KEY: usize = 2026;

/// Makes the calls in order, and gives one reply a call. The list of the replies and the room of
/// each content and key are reserved first: `Memory` there means that no call was made, and no call
/// fails for memory of its reply afterwards.
pub fn run<S: PageStore>(
    alloc: Global,
    db: &mut Database<S>,
    calls: &[Call],
) -> Result<Vec<Reply>, Fault>
    ensures run { AtEachHandle db.old (λ h.
        IfOk result (λ replies. IsRun db.old db.new h (map call_of calls.now)
        (map reply_of replies.items))) }

    // A stop from the moment on at which a call began, and until it answered, leaves what one within
    // that call may.
    ensures steps { AtEachHandle db.old (λ h.
        IfOk result (λ replies. IsMadeInSteps db.old db.new h (map call_of calls.now)
        (map reply_of replies.items))) }

    // On any device each reply is one to its own call, and each call leaves what it leaves alone.
    // Over an honest store a reply tells nothing of the file that wasn't read or done.
    ensures answers { IfOk result (λ replies. AreAnswered db.old db.new calls.now replies.items) }
    ensures one_each { IfOk result (λ replies. vec_len replies ≡ length calls.now) }
    ensures goes { IfOk result (λ replies. IsSameUnder
        (bounds_behind (meta_kept db.old).bounds calls.now replies.items) db.old db.new) }
    ensures memory { IfErr result (λ e. (e ≡ Fault.Memory) × (db.new ≡ db.old)) }
{
    let Ok(mut replies) = Vec::with_capacity(alloc, calls.len()) else {
        return Err(Fault::Memory);
    };
    let longest = longest_in(calls, db.version());
    let Ok(mut rooms) = rooms_for(alloc, calls, longest) else {
        return Err(Fault::Memory);
    };
    for call in calls {
        let reply = answer(db, call, &mut rooms);
        replies.push(reply).unwrap();
    }
    Ok(replies)
}

/// Empty rooms for the contents and the keys that calls give.
#[derive(Drop)]
struct Rooms {
    contents: Vec<Vec<u8>>,
    keys: Vec<Vec<u8>>,
}

/// The most bytes that a content may have in a file of this version.
fn longest_content(version: Version) -> usize
    ensures { result ≡ longest_content (model_version version) }
{
    match version {
        Version::V1 => 2026,
        Version::V2 => 65_535,
    }
}

/// The most bytes that a content may have in these calls, on a file that is of this version before
/// them: an upgrade may be among them.
fn longest_in(calls: &[Call], version: Version) -> usize
    ensures before { longest_content (model_version version) ≤ result }
    ensures behind { All (λ call. call ≡ Call.Upgrade → result ≡ 65535) calls.now }
{
    let mut longest = longest_content(version);
    for call in calls {
        if let Call::Upgrade = call {
            longest = longest_content(Version::V2);
        }
    }
    longest
}

/// A room for each call that gives bytes, for a content of so many at most.
fn rooms_for(alloc: Global, calls: &[Call], longest: usize) -> Result<Rooms, AllocError>
    ensures { IfOk result (AreRoomsFor longest calls.now) }
{
    let mut rooms = Rooms {
        contents: Vec::new(alloc),
        keys: Vec::new(alloc),
    };
    for call in calls {
        match call {
            Call::Fetch(_) => {
                let room = Vec::with_capacity(alloc, longest)?;
                rooms.contents.push(room)?;
            }
            Call::First | Call::Next => {
                rooms.keys.push(Vec::with_capacity(alloc, LONGEST_KEY)?)?;
            }
            _ => {}
        }
    }
    Ok(rooms)
}

/// Makes a call. One that gives bytes takes one of the rooms.
fn answer<S: PageStore>(db: &mut Database<S>, call: &Call, rooms: &mut Rooms) -> Reply
    requires { (later : List Call) × (longest : ℕ)
        × (longest_content (meta_kept db.old).bounds.version ≤ longest)
        × AreRoomsFor longest (call.now ∷ later) rooms.old }
    ensures step { AtEachHandle db.old
        (λ h. IsStep db.old db.new h (call_of call.now) (reply_of result)) }
    ensures answered { IsAnswered db.old db.new call.now result }
    ensures goes { IsSameUnder
        (bounds_after (meta_kept db.old).bounds (call_of call.now) (reply_of result))
        db.old db.new }
    ensures rooms { (later : List Call) → (longest : ℕ)
        → AreRoomsFor longest (call.now ∷ later) rooms.old
        → AreRoomsFor longest later rooms.new }
{
    match call {
        Call::Store { key, content, mode } => {
            reply_to_store(db.store(key.as_slice(), content.as_slice(), *mode))
        }
        Call::Fetch(key) => {
            let room = take_room(&mut rooms.contents);
            bytes_in(room, db.fetch(key.as_slice()), Reply::NoRecord)
        }
        Call::Delete(key) => reply_to_delete(db.delete(key.as_slice())),
        Call::First => bytes_in(take_room(&mut rooms.keys), db.firstkey(), Reply::End),
        Call::Next => bytes_in(take_room(&mut rooms.keys), db.nextkey(), Reply::End),
        Call::Error => Reply::Number(db.error()),
        Call::Clear => Reply::Number(db.clearerr()),
        Call::Upgrade => reply_to_upgrade(db.upgrade()),
    }
}

/// One of the rooms.
fn take_room(rooms: &mut Vec<Vec<u8>>) -> Vec<u8>
    requires { 0 < vec_len rooms.old }
    ensures taken { (size count : ℕ) → AreRooms size (count + 1) rooms.old
        → IsRoom size result × AreRooms size count rooms.new }
{
    rooms.pop().unwrap()
}

/// The reply to a store.
fn reply_to_store(ended: Result<StoreReply, Fault>) -> Reply
    ensures { result ≡ told_of_store ended }
{
    match ended {
        Ok(StoreReply::Stored) => Reply::Stored,
        Ok(StoreReply::Kept) => Reply::Kept,
        Err(fault) => Reply::Refused(fault),
    }
}

/// The reply to a delete.
fn reply_to_delete(ended: Result<DeleteReply, Fault>) -> Reply
    ensures { result ≡ told_of_delete ended }
{
    match ended {
        Ok(DeleteReply::Deleted) => Reply::Deleted,
        Ok(DeleteReply::Absent) => Reply::Absent,
        Err(fault) => Reply::Refused(fault),
    }
}

/// The reply to an upgrade.
fn reply_to_upgrade(ended: Result<(), Fault>) -> Reply
    ensures { result ≡ told_of_upgrade ended }
{
    match ended {
        Ok(()) => Reply::Upgraded,
        Err(fault) => Reply::Refused(fault),
    }
}

/// The reply that gives bytes, which are copied into a room, or `none` where there are none.
fn bytes_in(mut room: Vec<u8>, found: Result<Option<&[u8]>, Fault>, none: Reply) -> Reply
    requires { (size : ℕ) × IsRoom size room
        × IfOk found (λ r. IfSome r (λ bytes. length bytes.now ≤ size)) }
    ensures { result ≡ told_of_bytes none found.entry }
{
    match found {
        Ok(Some(bytes)) => {
            room.extend_from_slice(bytes).unwrap();
            Reply::Bytes(Octets::from(room))
        }
        Ok(None) => none,
        Err(fault) => Reply::Refused(fault),
    }
}
