//! The conversations of a generated capture, and the numbers from which they are drawn.
ghost use Rattle.capture_gen.specs.Conversation.{
  after_draws,
  conversation_from,
  drawn,
  kind_from,
  kind_of,
  next,
  steps_of,
};
ghost use Rattle.std.specs.Prelude.{◌≡◌, ◌^◌, ◌<◌, ◌≤◌};

// What a draw is divided by, so that its upper 31 bits are left.
const LOW_BITS: u64 = 8_589_934_592;

/// What the two ends of a conversation speak.
#[derive(Clone, Copy, Debug, PartialEq, Eq)]
pub enum Kind {
    /// A request over TCP to port 80, and its answer.
    Web,
    /// A question over UDP to port 53, and its answer.
    Query,
    /// An ICMP echo, and its reply.
    Ping,
}

/// A conversation between a client and a server.
#[derive(Clone, Copy, Debug, PartialEq, Eq)]
pub struct Conversation {
    pub kind: Kind,
    /// The last byte of the client's address.
    pub client: u8,
    /// The client's port.
    pub port: u16,
    /// The last byte of the server's address.
    pub server: u8,
    /// How many bytes more than 100 a web server answers; below 400.
    pub size: u16,
}

/// The state after this one.
pub fn next(x: u64) -> u64
    ensures { result ≡ next x }
{
    x.wrapping_mul(6_364_136_223_846_793_005)
        .wrapping_add(1_442_695_040_888_963_407)
}

// The number below `n` that a state gives.
fn drawn(n: u64, x: u64) -> u64
    requires { 0 < n }
    ensures value { result ≡ drawn n x }
    ensures small { result < n }
{
    x / LOW_BITS % n
}

// The kind that the first draw stands for.
fn kind_of(n: u64) -> Kind
    ensures { result ≡ kind_of n }
{
    if n < 2 {
        Kind::Web
    } else if n == 2 {
        Kind::Query
    } else {
        Kind::Ping
    }
}

/// The kind of the conversation that is drawn from a state on.
pub fn kind_from(x: u64) -> Kind
    ensures { result ≡ kind_from x }
{
    kind_of(drawn(4, next(x)))
}

/// The conversation that is drawn from a state on.
pub fn conversation_from(x: u64) -> Conversation
    ensures value { result ≡ conversation_from x }
    ensures small { result.size < 400 }
{
    let host = next(next(x));
    let port = next(host);
    let server = next(port);
    let size = next(server);
    Conversation {
        kind: kind_from(x),
        client: 1 + drawn(200, host) as u8,
        port: 1024 + drawn(60_000, port) as u16,
        server: 1 + drawn(16, server) as u8,
        size: drawn(400, size) as u16,
    }
}

/// The state after the five draws of a conversation.
pub fn after_draws(x: u64) -> u64
    ensures { result ≡ after_draws x }
{
    next(next(next(next(next(x)))))
}

/// How many frames a conversation of a kind has.
pub fn steps_of(kind: Kind) -> u8
    ensures { result ≡ steps_of kind }
{
    match kind {
        Kind::Web => 10,
        Kind::Query | Kind::Ping => 2,
    }
}
