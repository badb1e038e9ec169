//! What a controller keeps of its tunnels and keys: the life of each direction's associations (the IKE-less case of RFC
//! 9061), which order a direction gets next, and the halves as entries of a gateway's database.
//!
//! `specs/Tunnels.antt` has what is kept, `specs/Lives.antt` and `specs/Steps.antt` how far it comes, `specs/Halves.antt` the entries.
#![tactic(auto)]

mod half;
mod keyring;
mod laws;
mod life;
mod progress;
mod shown;
mod tunnel;

pub use half::{HalfName, Side, read_half_name, write_in_name, write_out_name};
pub use keyring::Keyring;
pub use laws::half_names_are_read;
pub use life::{HalfOrder, Life, Task};
pub use progress::Progress;
pub use shown::Shown;
pub use tunnel::{Direction, Pair, Tunnel};
