// What a request comes to before anything is changed.
use crate::Refusal;
use action_graph::Plan;
use opam_package::Target;

/// What a switch is to become, and what is done for that.
#[derive(Drop)]
pub struct Planned {
    pub target: Target,
    pub plan: Plan,
}

/// What a request comes to.
#[derive(Drop)]
pub enum Front {
    Refuses(Refusal),
    Plans(Planned),
}
