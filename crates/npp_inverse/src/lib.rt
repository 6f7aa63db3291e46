//! Best tolls for chosen paths, and the reply of travellers to tolls.
#![tactic(auto)]

mod best;
mod offer;
mod quiet;
mod refusal;
mod reply;
mod workspace;

pub use best::{Best, best_tolls, best_tolls_for, best_tolls_in};
pub use npp_rows::{Mark, Response, Step};
pub use quiet::{Work, step_of, work_on, work_on_in};
pub use refusal::RespondRefusal;
pub use reply::{reply_to, respond};
pub use workspace::Workspace;
