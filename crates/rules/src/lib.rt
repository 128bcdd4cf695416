// The nouns of documents 01 and 02, by value. What they mean stands in specs/, what follows from it in
// proofs/; of functions only the conversions to the documents' numbers and of an error stand here.
#![tactic(auto)]

ghost use Rattle.std.specs.Prelude.{◌≡◌};
ghost use Rattle.rules.specs.Decide.{action_number};
ghost use Rattle.rules.specs.Word.{number_of, letter_number, refused_for};

// A Port Number is no bus number and no device number: each has a type of its own, and only a Port
// Number reads the Egress Control Vector.
#[derive(Clone, Copy, Debug, PartialEq, Eq)]
pub struct PortNumber(pub u8);

#[derive(Clone, Copy, Debug, PartialEq, Eq, PartialOrd, Ord)]
pub struct Bus(pub u8);

// Where a TLP goes: a request to an address, a completion to an ID (bus, then device and function).
#[derive(Clone, Copy, Debug, PartialEq, Eq)]
pub enum Target {
    Address(u64),
    Id(Bus, u8),
}

// What routing asks of a header. Its flags are tests of their own in the steps of document 01, and a
// TLP has each of them: an enum of requests and completions would have to be matched for every one.
#[derive(Clone, Copy, Debug, PartialEq, Eq)]
pub struct Tlp {
    // a request, else a completion
    pub request: bool,
    // a completion is owed, so that a violation ends in a completer abort and not in a drop
    pub completion_owed: bool,
    // of a completion: its Relaxed Ordering bit, which keeps C from redirecting it
    pub straight: bool,
    // the address type AT, which the steps compare as the number that it is
    pub address_type: u8,
    // the bus of the Requester ID
    pub requester_bus: Bus,
    pub target: Target,
}

// What the table of E, R and the vector bit says of a request to a peer.
#[derive(Clone, Copy, Debug, PartialEq, Eq)]
pub enum Handling {
    Direct,
    Redirect,
    Violation,
}

// Which letter a violation has: V, source validation; B, translation blocking; E, egress control;
// X, redirected request validation in the root complex. The numbers are those of the C interface.
#[derive(Clone, Copy, Debug, PartialEq, Eq)]
pub enum Letter {
    Source = 0,
    Translation = 1,
    Egress = 5,
    Validation = 7,
}

// This conversion and those of `Action` and `Refusal` differ in their type alone; each is an `impl` of
// its own, since one that a macro writes is not taken.
impl From<Letter> for u8 {
    ghost from_gives = { λ letter number. number ≡ letter_number letter };

    fn from(letter: Letter) -> u8 {
        letter as u8
    }
}

// What a TLP comes to. A node is a record's index, and FFFFh is the root complex; whether it was checked,
// or aborts, is yes or no in the answer word too.
#[derive(Clone, Copy, Debug, PartialEq, Eq)]
pub enum Outcome {
    // the endpoint, and whether the delivery was checked
    Delivered(u16, bool),
    Host,
    Unclaimed(u16),
    Undefined(u16),
    // of which control, at which port, and whether it is a completer abort
    Violated(Letter, u16, bool),
}

// Where a TLP that goes down comes to: the endpoint it is for, or the node that nobody claims it at.
// Neither is an error, so this is no `Result`.
#[derive(Clone, Copy, Debug, PartialEq, Eq)]
pub enum Landing {
    Arrives(u16),
    Nobody(u16),
}

// What the port that a TLP enters going down does with it.
#[derive(Clone, Copy, Debug, PartialEq, Eq)]
pub enum Down {
    // on to this port
    Into(u16),
    // the node below is the end
    Lands(Landing),
    // no child: the port itself is the end
    Alone,
}

// A hop's action: what a port did with the TLP. The numbers are those of a hop's third byte.
#[derive(Clone, Copy, Debug, PartialEq, Eq)]
pub enum Action {
    AsAddressed = 1,
    RedirectedUp = 2,
    UpByU = 3,
    DirectToPeer = 4,
    Reflected = 5,
    Downward = 6,
    EndsHere = 7,
}

impl From<Action> for u8 {
    ghost from_gives = { λ action number. number ≡ action_number action };

    fn from(action: Action) -> u8 {
        action as u8
    }
}

// What the port that a TLP enters going up does with it.
#[derive(Clone, Copy, Debug, PartialEq, Eq)]
pub enum Move {
    // to the port above the parent, with this action
    Up(Action),
    // direct to this sibling port
    Across(u16),
    // reflected by the root complex
    Reflect,
    // the port itself is the end
    Stop(Outcome),
    // the end is this node, and the port's own hop has this action
    Beyond(Outcome, u16, Action),
}

// The bus numbers of a bridge.
#[derive(Clone, Copy, Debug, PartialEq, Eq)]
pub struct Buses {
    pub primary: Bus,
    pub secondary: Bus,
    pub subordinate: Bus,
}

// A range of addresses, first and last; a closed one is (1, 0).
#[derive(Clone, Copy, Debug, PartialEq, Eq)]
pub struct Range {
    pub first: u64,
    pub last: u64,
}

// A part of an image: where it starts, and how long it is.
#[derive(Clone, Copy, Debug, PartialEq, Eq, Default)]
pub struct Extent {
    pub offset: u16,
    pub length: u16,
}

// Why an input is refused, with the documents' numbers.
#[derive(Clone, Copy, Debug, PartialEq, Eq)]
pub enum Refusal {
    Malformed = 1,
    Version = 2,
    Time = 3,
    Faulty = 4,
    Origin = 5,
    Header = 6,
    Room = 7,
    Length = 8,
    Capabilities = 9,
}

impl From<Refusal> for u8 {
    ghost from_gives = { λ why number. number ≡ number_of why };

    fn from(why: Refusal) -> u8 {
        why as u8
    }
}

// A refusal with its index: of a faulty record its own, else 0.
#[derive(Clone, Copy, Debug, PartialEq, Eq)]
pub struct Refused {
    pub why: Refusal,
    pub index: u16,
}

impl From<Refusal> for Refused {
    ghost from_gives = { λ why refused. refused ≡ refused_for why };

    fn from(why: Refusal) -> Refused {
        Refused { why, index: 0 }
    }
}

// What an accepted query comes to, with its hop count.
#[derive(Clone, Copy, Debug, PartialEq, Eq)]
pub struct Ended {
    pub end: Outcome,
    pub count: u16,
}
