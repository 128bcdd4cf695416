// Going up: what a port does with a TLP that enters it. Steps 1 to 6 of document 01, in their order.
ghost use Rattle.std.specs.Prelude.{◌≡◌, false, ◌<◌};
ghost use Rattle.rules.specs.Snapshot.{count, kind, is_root};
ghost use Rattle.rules.specs.Decide as rule;
ghost use Rattle.cover.specs.Asked.{shape, setting};
ghost use Rattle.port.specs.Parts.{goes_translated, by_table};

use crate::egress::peer_request;
use cover::{Query, Visit};
use layout::COMPLEX;
use layout::acs::Acs;
use layout::kind::Kind;
use rules::{Action, Handling, Letter, Move, Outcome};

// The port itself is the end, by this control; it is a completer abort where a completion is owed.
fn violation(letter: Letter, visit: Visit<'_>) -> Move
    ensures { let v = visit.entry in result ≡ rule.violation letter v.query.tlp v.node }
{
    Move::Stop(Outcome::Violated(letter, visit.node, visit.query.tlp.completion_owed))
}

// Validation in the root complex, which reflects or not, blocks the TLP; it never blocks a
// completion.
fn blocks(query: Query<'_>) -> bool
    ensures { let q = query.entry in result ≡ rule.blocks (shape q) q.tlp }
{
    query.tlp.request && !query.reflects
}

// A root port gives a request to validation and reflects a completion.
fn at_the_top(visit: Visit<'_>) -> Move
    ensures { let v = visit.entry in result ≡ rule.at_the_top (shape v.query) v.query.tlp v.node }
{
    if blocks(visit.query) {
        violation(Letter::Validation, visit)
    } else {
        Move::Reflect
    }
}

// Up, by redirect or by U, with this action.
fn sent_up(visit: Visit<'_>, action: Action) -> Move
    ensures { let v = visit.entry in result ≡ rule.sent_up (shape v.query) v.query.tlp v.node action }
{
    if visit.record().is(Kind::Root) {
        at_the_top(visit)
    } else {
        Move::Up(action)
    }
}

// Step 1: a request whose requester is not below the port. A completion's source is never validated.
fn bad_source(visit: Visit<'_>) -> bool
    ensures { let v = visit.entry in result ≡ rule.bad_source (shape v.query) (setting v.query) v.query.tlp v.node }
{
    let tlp = visit.query.tlp;
    let port = visit.record();
    let validated = tlp.request & port.control().on(Acs::V);
    validated && !port.bus_range().contains(tlp.requester_bus)
}

// Step 2: a request with an address type other than 0.
fn bad_translation(visit: Visit<'_>) -> bool
    ensures { let v = visit.entry in result ≡ rule.bad_translation (setting v.query) v.query.tlp v.node }
{
    let tlp = visit.query.tlp;
    let checked = tlp.request & visit.record().control().on(Acs::B);
    checked && tlp.address_type != 0
}

// Step 3: the port itself covers it.
fn own_range(visit: Visit<'_>) -> Move
    ensures { let v = visit.entry in result ≡ rule.own_range (shape v.query) (setting v.query) v.query.tlp v.node }
{
    if visit.record().control().on(Acs::U) {
        sent_up(visit, Action::UpByU)
    } else {
        Move::Stop(Outcome::Undefined(visit.node))
    }
}

// C redirects this completion.
fn turns_back(visit: Visit<'_>) -> bool
    ensures { let v = visit.entry in result ≡ rule.turns_back (setting v.query) v.query.tlp v.node }
{
    visit.record().control().on(Acs::C) && !visit.query.tlp.straight
}

// T lets this request go straight to its peer.
fn goes_translated(visit: Visit<'_>) -> bool
    ensures { let v = visit.entry in result ≡ goes_translated (setting v.query) v.query.tlp v.node }
{
    visit.record().control().on(Acs::T) && visit.query.tlp.address_type == 2
}

// What the table gives for a request to the peer q, worked out from the port's registers. A peer is a
// number below the count, as the search for it gives it: of a visit it would have to be said that its
// query is this one.
fn by_table(visit: Visit<'_>, q: u16) -> Handling
    requires { q < count visit.query.bytes.now }
    ensures { let v = visit.entry in result ≡ by_table (shape v.query) (setting v.query) v.node q }
{
    let port = visit.record();
    let control = port.control();
    let peer = visit.query.at(q).record();
    peer_request(
        control.on(Acs::E),
        control.on(Acs::R),
        port.vector_bit(peer.port_number()),
    )
}

// Step 4: how the port handles a TLP for its peer q.
fn peer_handling(visit: Visit<'_>, q: u16) -> Handling
    requires { q < count visit.query.bytes.now }
    ensures { let a = visit.entry.query in result ≡ rule.peer_handling (shape a) (setting a) a.tlp visit.entry.node q }
{
    if visit.query.tlp.request {
        if goes_translated(visit) {
            Handling::Direct
        } else {
            by_table(visit, q)
        }
    } else if turns_back(visit) {
        Handling::Redirect
    } else {
        Handling::Direct
    }
}

// Direct to the peer, which root ports need flag bit 0 for.
fn direct(visit: Visit<'_>, q: u16) -> Move
    ensures { let v = visit.entry in result ≡ rule.direct (shape v.query) v.node q }
{
    if visit.record().is(Kind::Root) && !visit.query.fabric().snapshot().roots_reach() {
        Move::Beyond(Outcome::Unclaimed(COMPLEX), COMPLEX, Action::DirectToPeer)
    } else {
        Move::Across(q)
    }
}

// Step 4: what the port's handling of a TLP for its peer q comes to.
fn handled(visit: Visit<'_>, q: u16, handling: Handling) -> Move
    ensures { let v = visit.entry in result ≡ rule.handled (shape v.query) v.query.tlp v.node q handling }
{
    match handling {
        Handling::Direct => direct(visit, q),
        Handling::Redirect => sent_up(visit, Action::RedirectedUp),
        Handling::Violation => violation(Letter::Egress, visit),
    }
}

// Step 4: sibling port q covers it.
fn to_peer(visit: Visit<'_>, q: u16) -> Move
    requires { q < count visit.query.bytes.now }
    ensures { let v = visit.entry in result ≡ rule.to_peer (shape v.query) (setting v.query) v.query.tlp v.node q }
{
    handled(visit, q, peer_handling(visit, q))
}

// Step 5: past the parent of a kind 3 port.
fn past_parent(visit: Visit<'_>) -> Move
    requires { is_root (kind visit.query.bytes.now visit.node) ≡ false }
    ensures { let v = visit.entry in result ≡ rule.past_parent (shape v.query) v.query.tlp v.node }
{
    let above = visit.parent();
    if above.covers() {
        Move::Beyond(
            Outcome::Unclaimed(above.node),
            above.node,
            Action::AsAddressed,
        )
    } else {
        Move::Up(Action::AsAddressed)
    }
}

// Steps 5 and 6: nobody at the port's level covers it.
fn onward(visit: Visit<'_>) -> Move
    ensures { let v = visit.entry in result ≡ rule.onward (shape v.query) v.query.tlp v.node }
{
    if visit.record().is(Kind::Root) {
        Move::Beyond(Outcome::Host, COMPLEX, Action::AsAddressed)
    } else {
        past_parent(visit)
    }
}

// Steps 1 to 6.
pub fn decide(visit: Visit<'_>) -> Move
    ensures { let v = visit.entry in result ≡ rule.decide (shape v.query) (setting v.query) v.query.tlp v.node }
{
    if bad_source(visit) {
        return violation(Letter::Source, visit);
    }
    if bad_translation(visit) {
        return violation(Letter::Translation, visit);
    }
    if visit.covers() {
        return own_range(visit);
    }
    match visit.peer() {
        Some(q) => to_peer(visit, q),
        None => onward(visit),
    }
}
