//! A desk hands the work of must-finish and asynchronous threads to clerks, one for each thread, which may work in
//! threads of their own, and publishes what comes back. Whatever the clerks do, that is what one thread makes of it.
#![tactic(auto)]

mod clerk;
mod desk;
mod held;
mod post;
mod rack;
mod shut_post;
mod turns;

pub use clerk::Clerk;
pub use desk::Desk;
pub use held::Held;
pub use post::Post;
pub use rack::Rack;
pub use shut_post::ShutPost;
pub use trick_post_places::Picked;
pub use trick_post_work::{Job1, Posted, Posts};
