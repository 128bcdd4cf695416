// Hops written into the caller's buffer.
ghost use Rattle.std.specs.Prelude.{◌≡◌, ◌<◌, ◌∷◌, []};
ghost use Rattle.rules.specs.Decide.{action_number};
ghost use Rattle.rules.specs.Route.{hop};
ghost use Rattle.walk.specs.Hops.{put_at};
ghost use Rattle.walk.specs.Trails.{Extends};

use rules::Action;

// Writes hop number k where the buffer has room for it: four bytes in the part that starts at four
// times its number, as document 01 wants it, so that buffer and number come apart here.
pub fn put_hop(buffer: &mut [u8], k: usize, index: u16, action: u8)
    ensures { buffer.new ≡ put_at buffer.old k (hop index action) }
{
    if k < buffer.len() / 4 {
        let at = 4 * k;
        let part = &mut buffer[at..];
        let [low, high] = index.to_le_bytes();
        part[0] = low;
        part[1] = high;
        part[2] = action;
        part[3] = 0;
    }
}

// The hops so far: all are counted, and written where the buffer has room.
#[derive(Drop)]
pub struct Trail<'a> {
    buffer: &'a mut [u8],
    pub hops: usize,
}

impl<'a> Trail<'a> {
    // No hop yet: the first one goes to the buffer's start.
    pub fn new(buffer: &'a mut [u8]) -> Trail<'a>
        ensures same_buffer { result.buffer.ghost_name ≡ buffer.entry.ghost_name }
        ensures as_it_was { result.buffer.now ≡ buffer.old }
        ensures none { result.hops ≡ 0 }
    {
        Trail { buffer, hops: 0 }
    }

    // One hop more. It is counted before its bytes are stored: behind the stores the count would be read
    // anew.
    pub fn put(&mut self, index: u16, action: Action)
        requires { self.old.hops < usize.MAX }
        ensures { Extends self.old (hop index (action_number action) ∷ []) self.new }
    {
        let number = self.hops;
        self.hops += 1;
        put_hop(self.buffer, number, index, u8::from(action));
    }
}
