// A customer's setup and its file: the kinds of parts, a setup as it is handed over, and why a file or a setup is refused.
#![tactic(auto)]

mod kind;
mod refusal;
mod setup;

pub use kind::Kind;
pub use refusal::Refusal;
pub use setup::Setup;
