// The way of one TLP from its origin. What stands above this crate has checked the snapshot once and
// walks it as often as it likes: `outcome` for what the TLP comes to, `hops` for the hops besides.
ghost use Rattle.std.specs.Prelude.{◌≡◌, true};
ghost use Rattle.rules.specs.Route as rule;
ghost use Rattle.rules.specs.Refuse as refuse;
ghost use Rattle.cover.specs.Asked.{shape, setting};
ghost use Rattle.walk.specs.Hops.{puts};
ghost use Rattle.walk.specs.Trails.{Walks};
ghost use Rattle.walk.specs.Ways.{walked_from};

use crate::Walked;
use crate::hops::Trail;
use crate::up::{from_top, go_up};
use cover::{Query, Visit};
use layout::COMPLEX;
use layout::fabric::Fabric;
use layout::kind::Kind;
use rules::Outcome;

// The origin is the host or an endpoint's index.
pub fn is_origin(fabric: Fabric<'_>, o: u16) -> bool
    ensures { result ≡ refuse.is_origin fabric.entry.bytes.now o }
{
    o == COMPLEX || (o < fabric.snapshot().count() && fabric.node(o).is(Kind::Endpoint))
}

// A TLP at its origin.
#[derive(Clone, Copy)]
pub struct Start<'a> {
    pub query: Query<'a>,
    pub origin: u16,
    pub ghost rightful: { refuse.is_origin query.bytes.now origin ≡ true },
}

impl Start<'_> {
    // What the TLP comes to, with its hops put on the trail.
    fn walk(self, trail: &mut Trail<'_>) -> Outcome
        requires { trail.old.hops ≡ 0 }
        ensures { let q = self.entry.query in Walks (rule.route (shape q) (setting q) q.tlp self.entry.origin) trail.old result trail.new }
    {
        if self.origin == COMPLEX {
            return from_top(self.query, false, trail);
        }
        let card = Visit {
            query: self.query,
            node: self.origin,
        };
        go_up(self.query, card.record().parent(), trail)
    }

    // What the TLP comes to and its hop count, with the hops written from the buffer's start where it
    // has room.
    pub fn hops(self, buffer: &mut [u8]) -> Walked
        ensures value { let q = self.entry.query in result ≡ walked_from 0 (rule.route (shape q) (setting q) q.tlp self.entry.origin) }
        ensures buffer_after { let q = self.entry.query in buffer.new ≡ puts buffer.old 0 (rule.route (shape q) (setting q) q.tlp self.entry.origin).hops }
    {
        let mut trail = Trail::new(buffer);
        let end = self.walk(&mut trail);
        Walked {
            end,
            hops: trail.hops,
        }
    }

    // What the TLP comes to, and its hop count: the walk with a buffer of no bytes.
    pub fn outcome(self) -> Walked
        ensures { let q = self.entry.query in result ≡ walked_from 0 (rule.route (shape q) (setting q) q.tlp self.entry.origin) }
    {
        self.hops(&mut [])
    }
}
