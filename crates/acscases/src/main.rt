// Answers a stream of items on standard input: each has its length, 4 bytes, little-endian, and that
// many bytes, a call with its arguments. It ends with the stream, or at an item that is cut off.
#![tactic(auto)]

mod items;
mod line;

ghost use Rattle.std.specs.Prelude.{◌≡◌, length};

// Read and written by the kit's `io`, as in `acsroute`.
const STDIN: i32 = 0;

const STDOUT: i32 = 1;

// Reads as many bytes as there is room for. Whether they were there.
fn read_whole(room: &mut [u8]) -> bool {
    let n = room.len();
    io::read_full(STDIN, room) == n
}

// Passes over n bytes. Whether they were there.
fn pass(n: usize) -> bool {
    let mut chunk = io::buffer();
    for _ in 0..n / 4096 {
        if !read_whole(&mut chunk) {
            return false;
        }
    }
    read_whole(&mut chunk[..n % 4096])
}

// Room for an item.
fn room() -> [u8; 131072]
    ensures { 131072 ≡ length result }
{
    [0; 131072]
}

// Answers an item of this length, and whether to go on. One for which there is no room is passed over.
fn answer_item(length: usize) -> bool {
    let mut room = room();
    if length > room.len() {
        return pass(length) && items::bad();
    }
    read_whole(&mut room[..length]) && items::answer(&room[..length])
}

// Answers one item, and whether to go on. (Of a `u32` no `usize` is made by `From`.)
fn answer() -> bool {
    let mut prefix = [0u8; 4];
    read_whole(&mut prefix) && answer_item(u32::from_le_bytes(prefix) as usize)
}

// A proved loop has to end, and nothing says that a stream does: no run uses up so many turns.
fn main() {
    for _ in 0..u64::MAX {
        if !answer() {
            break;
        }
    }
}
