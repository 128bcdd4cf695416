// A request to a peer, by E, R and the vector bit: its handling worked out in the words of the
// notice's register page (7.16).
ghost use Rattle.std.specs.Prelude.{◌≡◌};
ghost use Rattle.rules.specs.Decide.{handling};
ghost use Rattle.port.specs.Held.{held};

use rules::Handling;

// A request is held if it may not go straight to its peer. With Egress Control (E) the peer's bit of
// the Egress Control Vector decides that, without it Request Redirect (R) does.
fn is_held(egress_control: bool, request_redirect: bool, vector_bit: bool) -> bool
    ensures { result ≡ held (handling egress_control request_redirect vector_bit) }
{
    if egress_control {
        vector_bit
    } else {
        request_redirect
    }
}

// What is held is blocked, or redirected if that is enabled (7.16.3, 7.16.4).
pub fn peer_request(egress_control: bool, request_redirect: bool, vector_bit: bool) -> Handling
    ensures { result ≡ handling egress_control request_redirect vector_bit }
{
    if is_held(egress_control, request_redirect, vector_bit) {
        if request_redirect {
            Handling::Redirect
        } else {
            Handling::Violation // blocked
        }
    } else {
        Handling::Direct
    }
}
