// Two records of one snapshot, which the rules between siblings, and between a record and its
// parent, hold against each other.
ghost use Rattle.std.specs.Prelude.{◌≡◌};

use layout::record::Record;

#[derive(Clone, Copy)]
pub struct Pair<'a> {
    pub one: Record<'a>,
    pub other: Record<'a>,
    pub ghost together: { other.bytes.now ≡ one.bytes.now },
}
