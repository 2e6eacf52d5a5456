//! The public face of an endpoint over any port (fi_endpoint(3)): what each call promises, said once.
//!
//! An endpoint is seen as the machine's state with what is unfinished beside it, and with the lane that has
//! the next turn of progress (`specs/Held.antt`). What a
//! call does is a list of acts, each with its frame: the call itself, a frame taken, a frame posted, a draw, an
//! entry read (`specs/Acts.antt`). Each call has one clause for its Ok and one for its refusal
//! (`specs/Answers.antt`). `specs/Ports.antt` has what a port means, and `laws` what progress comes to over
//! many calls.
//!
//! Whoever stands above an endpoint is proved over these traits alone, whatever the port and the endpoint.
#![tactic(auto)]

pub mod calls;
pub mod events;
pub mod keeping;
pub mod lanes;
pub mod laws;
pub mod looking;
pub mod machine;
pub mod multis;
pub mod probing;
pub mod requesting;
pub mod targets;
