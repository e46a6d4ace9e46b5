// Document 01, "How a packet is served": the list that a search makes, an item at a time. The items stand
// one after the other from the start of a lent area on.
#![tactic(auto)]

ghost use Rattle.std.specs.Prelude.{◌≡◌, ◌++◌, ◌+◌, ◌≤◌, length};
ghost use Rattle.codec.specs.Buffer.{over, laid_at};
ghost use Rattle.primitives.specs.Numbers.{bytes_of};
ghost use Rattle.serve_collect.specs.Collect.{head_of, fit_at, spot_for, stopped, failing, taken, is_ended, found_by};

use att_error::AttErrorCode;
use primitives::Primitive;

// The items of a list: of `item_len` bytes each, and of `used` bytes together.
#[derive(Clone, Copy)]
pub struct Listed {
    pub item_len: u8,
    pub used: usize,
}

// A first match that the link may not read: its handle, and the code that it is refused with.
#[derive(Clone, Copy)]
pub struct Failed {
    pub handle: u16,
    pub code: AttErrorCode,
}

// How far a search is.
#[derive(Clone, Copy)]
pub enum Progress {
    Seeking,
    Taking(Listed),
    Ended(Option<Result<Listed, Failed>>),
}

// An item's first bytes: a handle, or a handle and the end of its group.
#[derive(Clone, Copy)]
pub enum Head {
    Handle(u16),
    Range(u16, u16),
}

// An item behind those taken so far, if it is of their length and fits into the room; else the list ends.
// Kept: the state goes in and comes back, as `taken` and `failing` have it.
pub fn append(head: Head, tail: &[u8], room: u8, state: Progress, items: &mut [u8]) -> Progress
    ensures { taken room (head_of head ++ tail.now) state items.old ≡ (result, items.new) }
{
    let len = head_len(head) + tail.len();
    match spot_for(state, len, room) {
        None => stop(state),
        Some(at) => {
            lay_at(at, head, tail, items);
            Progress::Taking(Listed {
                item_len: len as u8,
                used: at + len,
            })
        }
    }
}

// A first one that fails is the answer; a later one ends the list.
pub fn fail(state: Progress, handle: u16, code: AttErrorCode) -> Progress
    ensures { result ≡ failing handle code state }
{
    match state {
        Progress::Seeking => Progress::Ended(Some(Err(Failed { handle, code }))),
        Progress::Taking(list) => Progress::Ended(Some(Ok(list))),
        Progress::Ended(_) => state,
    }
}

// Whether the list has ended: nothing behind it counts.
pub fn ended(state: Progress) -> bool
    ensures { result ≡ is_ended state }
{
    matches!(state, Progress::Ended(_))
}

// What was found: nothing, a list, or a first match that may not be read.
pub fn result(state: Progress) -> Option<Result<Listed, Failed>>
    ensures { result ≡ found_by state }
{
    match state {
        Progress::Seeking => None,
        Progress::Taking(list) => Some(Ok(list)),
        Progress::Ended(found) => found,
    }
}

// The list ends before an item that does not go into it.
fn stop(state: Progress) -> Progress
    ensures { result ≡ stopped state }
{
    match state {
        Progress::Taking(list) => Progress::Ended(Some(Ok(list))),
        _ => state,
    }
}

// Where an item of `len` bytes goes.
fn spot_for(state: Progress, len: usize, room: u8) -> Option<usize>
    ensures { result ≡ spot_for room len state }
{
    match state {
        Progress::Seeking => fit(0, len, usize::from(room)),
        Progress::Taking(list) if len == usize::from(list.item_len) => fit(
            list.used,
            len,
            usize::from(room),
        ),
        _ => None,
    }
}

#[tactic(auto, unfolding(crate::specs::Collect::fit_at))]
fn fit(at: usize, len: usize, room: usize) -> Option<usize>
    ensures { result ≡ fit_at room len at }
{
    if at <= room && len <= room - at {
        Some(at)
    } else {
        None
    }
}

fn head_len(head: Head) -> usize
    ensures { result ≡ length (head_of head) }
{
    match head {
        Head::Handle(_) => 2,
        Head::Range(_, _) => 4,
    }
}

// An item from a place on; where there is no room for it, nothing changes.
fn lay_at(at: usize, head: Head, tail: &[u8], items: &mut [u8])
    ensures { items.new ≡ laid_at at (head_of head ++ tail.now) items.old }
{
    if at <= items.len() && head_len(head) + tail.len() <= items.len() - at {
        lay(head, tail, &mut items[at..]);
    }
}

fn lay(head: Head, tail: &[u8], dest: &mut [u8])
    requires { length (head_of head) + length tail.now ≤ length dest.old }
    ensures { dest.new ≡ over (head_of head ++ tail.now) dest.old }
{
    match head {
        Head::Handle(handle) => lay_one(handle, tail, dest),
        Head::Range(handle, end) => {
            let _ = handle.encode(dest);
            lay_one(end, tail, &mut dest[2..]);
        }
    }
}

fn lay_one(number: u16, tail: &[u8], dest: &mut [u8])
    requires { 2 + length tail.now ≤ length dest.old }
    ensures { dest.new ≡ over (bytes_of 2 number ++ tail.now) dest.old }
{
    let _ = number.encode(dest);
    let _ = codec::write_bytes(tail, &mut dest[2..]);
}
