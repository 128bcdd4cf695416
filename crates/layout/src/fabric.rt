// What an accepted snapshot describes, and its nodes.
ghost use Rattle.std.specs.Prelude.{◌≡◌, ◌<◌};
ghost use Rattle.rules.specs.Accepted.{Accepted};
ghost use Rattle.rules.specs.Snapshot as snapshot;

use crate::record::Record;
use crate::snapshot::Snapshot;

// An accepted snapshot.
#[derive(Clone, Copy)]
pub struct Fabric<'a> {
    pub bytes: &'a [u8],
    pub ghost accepted: { Accepted bytes.now },
}

impl<'a> Fabric<'a> {
    pub fn snapshot(self) -> Snapshot<'a>
        ensures { result.bytes.now ≡ self.entry.bytes.now }
    {
        Snapshot { bytes: self.bytes }
    }

    // Node number `index`.
    pub fn node(self, index: u16) -> Record<'a>
        requires { index < snapshot.count self.bytes.now }
        ensures bytes { result.bytes.now ≡ self.entry.bytes.now }
        ensures index { result.index ≡ index }
    {
        self.snapshot().record(index)
    }
}
