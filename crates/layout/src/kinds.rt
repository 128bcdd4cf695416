// What a byte says of a record: 1 root port, 2 switch upstream port, 3 switch downstream port, 4 endpoint.
ghost use Rattle.std.specs.Prelude.{◌≡◌};
ghost use Rattle.rules.specs.Snapshot as snapshot;

use crate::kind::Kind;

pub fn is_root(kind: u8) -> bool
    ensures { result ≡ snapshot.is_root kind }
{
    Kind::try_from(kind) == Ok(Kind::Root)
}

pub fn is_upstream(kind: u8) -> bool
    ensures { result ≡ snapshot.is_upstream kind }
{
    Kind::try_from(kind) == Ok(Kind::Upstream)
}

pub fn is_downstream(kind: u8) -> bool
    ensures { result ≡ snapshot.is_downstream kind }
{
    Kind::try_from(kind) == Ok(Kind::Downstream)
}

pub fn is_endpoint(kind: u8) -> bool
    ensures { result ≡ snapshot.is_endpoint kind }
{
    Kind::try_from(kind) == Ok(Kind::Endpoint)
}

// "Port" means kind 1 or 3.
pub fn is_port(kind: u8) -> bool
    ensures { result ≡ snapshot.is_port kind }
{
    matches!(Kind::try_from(kind), Ok(Kind::Root | Kind::Downstream))
}

// Bridges are kinds 1 to 3.
pub fn is_bridge(kind: u8) -> bool
    ensures { result ≡ snapshot.is_bridge kind }
{
    matches!(
        Kind::try_from(kind),
        Ok(Kind::Root | Kind::Upstream | Kind::Downstream)
    )
}
