//! A reference machine of clients that share one document, and its laws: `laws::clients_converge`.
#![tactic(auto)]

pub mod laws;
