//! What a step answers.

ghost use Rattle.std.specs.Prelude.{◌≡◌};
ghost use Rattle.system.specs.Faults.{effect_of};

use front::Effect as FrontEffect;
use groups::{ConnId, RequestId};
use journal::SkipIds;
use router::Outcome;

/// What a step that was made answers.
#[derive(Drop)]
pub enum Effect {
    /// The connection that was opened.
    Opened(ConnId),

    /// The id of the request that was submitted.
    Submitted(RequestId),

    /// The names of what starved of the layer, in its order: of requests, and of members of requests that were executed. A
    /// run that is told to let these starve comes to the same.
    Ran(SkipIds),

    /// The outcome that waited for the connection, if one did.
    Collected(Option<Outcome>),

    /// A packet came, or a layer was taken or settled, or a connection was closed.
    Made,
}

impl From<FrontEffect> for Effect {
    ghost from_gives = { λ made effect. effect ≡ effect_of made };

    fn from(made: FrontEffect) -> Effect {
        match made {
            FrontEffect::Opened(conn) => Effect::Opened(conn),
            FrontEffect::Submitted(id) => Effect::Submitted(id),
            FrontEffect::Collected(outcome) => Effect::Collected(outcome),
            FrontEffect::Made => Effect::Made,
        }
    }
}
