//! Gates that show on standard error how far a campaign or a reduction is, in one line that is written over or in lines of a log; or which plan is
//! run.
#![tactic(auto)]

mod cleared;
mod naming;
mod pace;
mod progress;
mod shown;
mod told;

pub use cleared::Cleared;
pub use naming::{Begun, Naming};
pub use pace::Pace;
pub use progress::Progress;
pub use shown::Shown;
pub use told::{Standing, Told};
